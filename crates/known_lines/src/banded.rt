// Lines drawn by lists of bands, two numbers to a band, compared with the second drawer in the rows of the accepted bands.
use crate::drawers::draw_second;
use crate::placed::{CLEAR, G, K, LEFTWARDS, MARKED_G, MARKED_K, Placed, Raster};
use crate::print::{print_bytes, print_end, print_placed};
use crate::second::refused;
use drawing::calls::BandCalls;
use line::ends::Ends;
use line_draw::draw::draw_bands;
use raster::window::Window;
use std::io;

// Whether the calls answered and left what the second drawer gives on the same start, in the rows of the accepted bands. Outside
// the limits none is accepted, as in a window without rows.
pub fn calls_alike(
    placed: Placed,
    start: Raster,
    bands: &[u32],
    calls: BandCalls,
    raster: Raster,
) -> bool {
    let mut window = placed.window;
    if !placed.within {
        window.height = 0;
    }
    let (pairs, _) = bands.as_chunks::<2>();
    let mut expected = start;
    let counts = draw_second(placed.ends, window, pairs, &mut expected);
    calls.refused == refused(pairs, window.height)
        && calls.fresh == counts.fresh
        && raster == expected
}

// Prints the start, what the calls answered and the raster that they left.
pub fn print_drawn(
    rt: &impl Print,
    start: Raster,
    calls: BandCalls,
    raster: Raster,
) -> io::Result<()> {
    print_bytes(rt, "start", &start)?;
    print!(rt; ", refused {}, fresh {}, ", calls.refused, calls.fresh)?;
    print_bytes(rt, "bytes", &raster)
}

// Prints a line drawn by a list of bands on a start.
fn show(
    rt: &impl Print,
    name: &str,
    placed: Placed,
    start: Raster,
    bands: &[u32],
) -> io::Result<()> {
    let mut raster = start;
    let calls = draw_bands(placed.ends, placed.window, bands, &mut raster);
    print_placed(rt, "bands ", name, placed)?;
    print_drawn(rt, start, calls, raster)?;
    print_end(rt, calls_alike(placed, start, bands, calls, raster))
}

// Prints line K by lists of which some bands or all are accepted, or that have none.
fn show_k(rt: &impl Print) -> io::Result<()> {
    show(rt, "in order", K, CLEAR, &[0, 1, 1, 1, 2, 1, 3, 1])?;
    show(rt, "bottom first", K, MARKED_K, &[3, 1, 1, 2, 0, 1])?;
    show(rt, "out of order", K, CLEAR, &[2, 1, 0, 1, 3, 1])?;
    show(rt, "overlapping", K, CLEAR, &[0, 3, 1, 3, 1, 1])?;
    show(rt, "repeated", K, MARKED_K, &[1, 2, 1, 2, 2, 1, 1, 1])?;
    show(
        rt,
        "refused among others",
        K,
        MARKED_K,
        &[
            0, 0, 2, 1, 3, 2, 4294967295, 2, 4, 1, 1, 1, 0, 5, 2147483648, 2147483648,
        ],
    )?;
    show(rt, "all refused", K, MARKED_K, &[4, 0, 0, 0, 4, 1, 3, 2])?;
    show(rt, "and a number", K, CLEAR, &[0, 2, 3])?;
    show(rt, "none but a number", K, MARKED_K, &[0])?;
    show(rt, "none", K, MARKED_K, &[])
}

// Prints line K with another column of the second end, or in another window, which is not within the limits.
fn show_out(
    rt: &impl Print,
    name: &str,
    x1: i32,
    left: i32,
    width: u32,
    height: u32,
) -> io::Result<()> {
    let placed = Placed {
        ends: Ends {
            x0: 0,
            y0: 0,
            x1,
            y1: 3,
        },
        window: Window {
            left,
            top: 0,
            width,
            height,
        },
        within: false,
    };
    show(rt, name, placed, MARKED_K, &[0, 1, 1, 1, 2, 1, 3, 1])
}

// Prints the lines.
pub fn show_all(rt: &impl Print) -> io::Result<()> {
    show_k(rt)?;
    show(rt, "bottom first", G, MARKED_G, &[4, 4, 2, 2, 0, 2])?;
    show(
        rt,
        "refused among others",
        G,
        CLEAR,
        &[7, 2, 8, 1, 1, 2, 0, 9, 6, 0],
    )?;
    show(rt, "out of order", LEFTWARDS, CLEAR, &[2, 6, 0, 1, 1, 1])?;
    show_out(rt, "of an end out of range", 16384, 0, 12, 4)?;
    show_out(rt, "of width 0", 11, 0, 0, 4)?;
    show_out(rt, "of a last column out of range", 11, 16373, 12, 4)?;
    show_out(rt, "of a raster too short", 11, 0, 12, 5)
}
