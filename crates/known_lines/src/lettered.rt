// Document 01's lettered lines: their axis and runs, and the raster where the document gives one.
use crate::drawers::{alike, bytes, on_clear};
use crate::placed::K;
use crate::print::{print_bytes, print_counts, print_end, print_ends, print_window};
use crate::small::{LIST, WINDOW};
use coordinate::Axis;
use line::ends::Ends;
use line_draw::draw::{draw_double, draw_single};
use line_list::list::{Listing, list_runs};
use raster::window::Window;
use std::io;

// Prints a list's runs, the three numbers of each, with a comma between two runs.
pub fn print_runs(rt: &impl Print, runs: &[[i32; 3]]) -> io::Result<()> {
    for (k, [across, lowest, pixels]) in runs.iter().enumerate() {
        if 0 < k {
            rt.print(",")?;
        }
        print!(rt; " {across} {lowest} {pixels}")?;
    }
    Ok(())
}

// Prints the axis and the runs that the lister gives.
fn print_list(rt: &impl Print, ends: Ends) -> io::Result<()> {
    let mut list = [0i32; LIST];
    rt.print(": ")?;
    match list_runs(ends, &mut list) {
        Ok(listing) => print_listing(rt, listing, &list),
        Err(_) => rt.print("refused"),
    }
}

// Prints the axis and the runs of a listed line.
pub fn print_listing(rt: &impl Print, listing: Listing, list: &[i32]) -> io::Result<()> {
    rt.print(match listing.axis {
        Axis::X => "axis x, runs",
        Axis::Y => "axis y, runs",
    })?;
    let (runs, _) = list.as_chunks::<3>();
    print_runs(rt, runs.get(..listing.runs as usize).unwrap_or(&[]))
}

// Prints a line's letter, ends, axis and runs, and answers whether it is drawn alike in a window that holds it.
fn print_line(rt: &impl Print, letter: char, ends: Ends) -> io::Result<bool> {
    print!(rt; "{letter}: ")?;
    print_ends(rt, ends)?;
    print_list(rt, ends)?;
    Ok(alike(ends, WINDOW, None))
}

// Prints a line that the document gives without a window.
fn show(rt: &impl Print, letter: char, x0: i32, y0: i32, x1: i32, y1: i32) -> io::Result<()> {
    let ends = Ends { x0, y0, x1, y1 };
    let whole = print_line(rt, letter, ends)?;
    print_end(rt, whole)
}

// Draws the line by the single-step drawer on the raster that is lent, and prints the bytes and the counts; then draws it once
// more, by the double-step drawer, and prints how many pixels are fresh.
fn print_drawing_on(
    rt: &impl Print,
    ends: Ends,
    window: Window,
    raster: &mut [u8],
) -> io::Result<()> {
    match draw_single(ends, window, raster) {
        Ok(counts) => {
            print_bytes(rt, "bytes", raster)?;
            rt.print(", ")?;
            print_counts(rt, counts)?;
        }
        Err(_) => rt.print("refused")?,
    }
    match draw_double(ends, window, raster) {
        Ok(counts) => print!(rt; ", again {}", counts.fresh),
        Err(_) => rt.print("refused"),
    }
}

// The same on a clear raster.
fn print_drawing(rt: &impl Print, ends: Ends, window: Window) -> io::Result<()> {
    on_clear(bytes(window), |raster| {
        print_drawing_on(rt, ends, window, raster)
    })
    .unwrap_or(Ok(()))
}

// Prints a line that the document gives in a window at left 0, top 0.
fn show_in(rt: &impl Print, letter: char, ends: Ends, width: u32, height: u32) -> io::Result<()> {
    let window = Window {
        left: 0,
        top: 0,
        width,
        height,
    };
    let whole = print_line(rt, letter, ends)?;
    rt.print(";")?;
    print_window(rt, window)?;
    print_drawing(rt, ends, window)?;
    print_end(rt, whole && alike(ends, window, None))
}

// Prints the lettered lines.
pub fn show_all(rt: &impl Print) -> io::Result<()> {
    show(rt, 'A', 5, 5, 5, 5)?;
    show(rt, 'B', 0, 0, 10, 0)?;
    show(rt, 'C', 0, 0, 3, 3)?;
    show(rt, 'D', 0, 0, 2, 1)?;
    show(rt, 'E', 2, 1, 0, 0)?;
    show(rt, 'F', 0, 0, 4, 2)?;
    show(rt, 'G', 0, 0, 3, 7)?;
    show(rt, 'H', 0, 0, 11, 3)?;
    show(rt, 'I', 0, 0, -11, -3)?;
    let j = Ends {
        x0: -3,
        y0: 0,
        x1: 3,
        y1: 0,
    };
    show_in(rt, 'J', j, 4, 1)?;
    show_in(rt, 'K', K.ends, 12, 4)
}
