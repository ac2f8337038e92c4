// Every line between two pixels of a small square, in every direction, in several windows.
use crate::drawers::alike;
use crate::print::{print_end, print_window};
use coordinate::Coordinate;
use line::ends::Ends;
use raster::window::Window;
use std::io;

// The square: its first column and row, −3, counted from the lowest coordinate, and its side.
const FIRST: u32 = 16381;

const SIDE: u32 = 7;
// SIDE to the fourth: the lines between two of its pixels.
const LINES: u32 = 2401;

// The ends of line `k` of the square.
fn line(k: u32) -> Ends {
    Ends {
        x0: Coordinate::unbiased(FIRST + k % SIDE),
        y0: Coordinate::unbiased(FIRST + k / SIDE % SIDE),
        x1: Coordinate::unbiased(FIRST + k / (SIDE * SIDE) % SIDE),
        y1: Coordinate::unbiased(FIRST + k / (SIDE * SIDE * SIDE) % SIDE),
    }
}

// Prints a window, and how many of the square's lines are drawn alike there.
fn show(rt: &impl Print, left: i32, top: i32, width: u32, height: u32) -> io::Result<()> {
    let window = Window {
        left,
        top,
        width,
        height,
    };
    rt.print("square")?;
    print_window(rt, window)?;
    let count = (0..LINES).filter(|k| alike(line(*k), window, None)).count();
    print!(rt; "{count} of {LINES} lines alike")?;
    print_end(rt, count == LINES as usize)
}

// Prints the windows.
pub fn show_all(rt: &impl Print) -> io::Result<()> {
    show(rt, -3, -3, 7, 7)?;
    show(rt, 0, 0, 1, 1)?;
    show(rt, -4, -4, 2, 2)?;
    show(rt, -3, 1, 7, 1)?;
    show(rt, 1, -3, 1, 7)?;
    show(rt, -5, -5, 12, 9)?;
    show(rt, 2, -1, 9, 3)?;
    show(rt, -9, -2, 8, 4)?;
    show(rt, -2, -9, 5, 8)?;
    show(rt, 8, 8, 16, 16)
}
