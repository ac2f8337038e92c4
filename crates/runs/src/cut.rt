// Cutting a run to a window.
ghost use Rattle.std.specs.Prelude.{◌≡◌, false, ◌≤◌};
ghost use Rattle.coordinate.specs.Coordinate.{out_of_range};
ghost use Rattle.runs.specs.Parts.{bad_run, cut_part, turned_window, piece_of};

use crate::stored::{Stored, natural_of};
use coordinate::{Axis, Coordinate};
use raster::grid::Grid;
use raster::window::Window;

// A part of a side of the window: its first pixel, counted from 0 at the side's first, and its number of pixels.
#[derive(Clone, Copy)]
struct Part {
    from: u32,
    pixels: u32,
}

// What is left of a run in the window: its short coordinate and its lowest long one, counted from 0 at left and top, and its
// number of pixels.
#[derive(Clone, Copy)]
pub struct Piece {
    pub across: u32,
    pub lowest: u32,
    pub pixels: u32,
}

// Of a side of `size` coordinates from `first` on, the part that the `n` coordinates from `low` on cover.
fn cut(low: i32, n: u32, first: i32, size: u32) -> Part
    requires { (out_of_range low ≡ false) × (out_of_range first ≡ false) × (n ≤ 32768) }
    ensures { result ≡ cut_part low n first size }
{
    let start = Coordinate::biased(low);
    let origin = Coordinate::biased(first);
    let from = start.saturating_sub(origin);
    let past = (start + n).saturating_sub(origin);
    let end = past.min(size);
    Part {
        from,
        pixels: end.saturating_sub(from),
    }
}

// The window with the axis as its x.
fn turned(axis: Axis, window: Window) -> Window
    ensures { result ≡ turned_window axis window }
{
    match axis {
        Axis::X => window,
        Axis::Y => Window {
            left: window.top,
            top: window.left,
            width: window.height,
            height: window.width,
        },
    }
}

// What is left of a lawful run in the grid's window.
pub fn cut_run(axis: Axis, run: Stored, grid: Grid) -> Piece
    requires { bad_run run ≡ false }
    ensures { result ≡ piece_of axis run grid.window }
{
    let n = natural_of(run.pixels);
    let side = turned(axis, grid.window);
    let long = cut(run.lowest, n, side.left, side.width);
    let short = cut(run.across, 1, side.top, side.height);
    Piece {
        across: short.from,
        lowest: long.from,
        pixels: long.pixels * short.pixels,
    }
}
