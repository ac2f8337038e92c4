// Painting one run.
ghost use Rattle.std.specs.Prelude.{◌≡◌, false, length};
ghost use Rattle.raster.specs.Window.{raster_bytes};
ghost use Rattle.drawing.specs.Drawing.{draw_counts, draw_raster};
ghost use Rattle.runs.specs.Run.{run_figure};
ghost use Rattle.runs.specs.Parts.{run_of, bad_run};

use crate::column::fill_column;
use crate::cut::cut_run;
use crate::stored::Stored;
use coordinate::Axis;
use drawing::counts::Counts;
use raster::grid::Grid;
use raster::span::fill_span;

// Marks the pixels of a lawful run that lie in the window, and answers how many they are and how many of them are fresh.
pub fn paint_run(axis: Axis, run: Stored, grid: Grid, raster: &mut [u8]) -> Counts
    requires { (bad_run run ≡ false) × (length raster.old ≡ raster_bytes grid.window) }
    ensures value { result ≡ draw_counts (run_figure axis (run_of run)) grid.window raster.old }
    ensures raster_after { raster.new ≡ draw_raster (run_figure axis (run_of run)) grid.window raster.old }
{
    let piece = cut_run(axis, run, grid);
    let n = piece.pixels;
    if n == 0 {
        return Counts { count: 0, fresh: 0 };
    }
    let fresh = match axis {
        Axis::X => fill_span(grid, piece.across, piece.lowest, n, raster),
        Axis::Y => fill_column(grid, piece.across, piece.lowest, n, raster),
    };
    Counts {
        count: u64::from(n),
        fresh: u64::from(fresh),
    }
}
