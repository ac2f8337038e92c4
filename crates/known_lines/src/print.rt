// Printing lines, windows, counts, rasters and answers.
use crate::placed::Placed;
use drawing::counts::Counts;
use line::ends::Ends;
use raster::window::Window;
use refusal::Refusal;
use std::io;

// Prints a line's ends.
pub fn print_ends(rt: &impl Print, ends: Ends) -> io::Result<()> {
    let Ends { x0, y0, x1, y1 } = ends;
    print!(rt; "({x0},{y0}) to ({x1},{y1})")
}

// Prints how many pixels were marked and how many of them are fresh.
pub fn print_counts(rt: &impl Print, counts: Counts) -> io::Result<()> {
    let Counts { count, fresh } = counts;
    print!(rt; "count {count}, fresh {fresh}")
}

// Prints where and how large a window is.
pub fn print_window(rt: &impl Print, window: Window) -> io::Result<()> {
    let Window {
        left,
        top,
        width,
        height,
    } = window;
    print!(rt; " in left {left}, top {top}, width {width}, height {height}: ")
}

// Prints what is shown and its name, then the line and its window.
pub fn print_placed(rt: &impl Print, text: &str, name: &str, placed: Placed) -> io::Result<()> {
    rt.print(text)?;
    rt.print(name)?;
    rt.print(": ")?;
    print_ends(rt, placed.ends)?;
    print_window(rt, placed.window)
}

// Prints a text and a raster's bytes.
pub fn print_bytes(rt: &impl Print, text: &str, bytes: &[u8]) -> io::Result<()> {
    rt.print(text)?;
    for byte in bytes {
        print!(rt; " {byte}")?;
    }
    Ok(())
}

// Prints how an operation answered: `taken`, or the refusal's number.
pub fn print_answer(rt: &impl Print, refusal: Option<Refusal>) -> io::Result<()> {
    match refusal {
        None => rt.print(" taken"),
        Some(refusal) => print!(rt; " refused {}", refusal.number()),
    }
}

// Ends a printed line, with `differ` where what it shows does not hold.
pub fn print_end(rt: &impl Print, holds: bool) -> io::Result<()> {
    rt.print(if holds { "\n" } else { " differ\n" })
}
