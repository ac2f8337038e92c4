// Lines drawn both ways: listed and painted in one raster, by a list of bands in another.
ghost use Rattle.std.specs.Prelude.{◌≤◌};

use crate::banded::{calls_alike, print_drawn};
use crate::drawers::draw_second;
use crate::lettered::print_listing;
use crate::placed::{CLEAR, G, K, LEFTWARDS, MARKED_G, MARKED_K, Placed, Raster};
use crate::print::{
    print_answer, print_bytes, print_counts, print_end, print_ends, print_placed, print_window,
};
use both_ways::draw::draw_both_ways;
use drawing::counts::Counts;
use line::ends::Ends;
use line_list::list::{Listing, list_runs};
use raster::window::Window;
use refusal::Refusal;
use std::io;

// A list before it is written: four runs, and the rest of it.
const LIST: [i32; 15] = [9; 15];

// Whether the lister by itself answers and leaves the same.
fn listed_alike(ends: Ends, listing: Listing, list: [i32; 15]) -> bool {
    let mut expected = LIST;
    match list_runs(ends, &mut expected) {
        Ok(other) => listing.axis == other.axis && listing.runs == other.runs && list == expected,
        Err(_) => false,
    }
}

// Whether the painter's counts and raster are those of the second drawer on the same start.
fn painted_alike(placed: Placed, start: Raster, counts: Counts, raster: Raster) -> bool {
    let mut expected = start;
    let whole = [[0, placed.window.height]];
    draw_second(placed.ends, placed.window, &whole, &mut expected) == counts && raster == expected
}

// Prints a line drawn both ways: listed and painted on the first start, and by a list of bands on the second.
fn show(
    rt: &impl Print,
    name: &str,
    placed: Placed,
    bands: &[u32],
    first: Raster,
    second: Raster,
) -> io::Result<()> {
    let Placed { ends, window, .. } = placed;
    let mut list = LIST;
    let mut painted = first;
    let mut banded = second;
    print_placed(rt, "both ways ", name, placed)?;
    let Ok(both) = draw_both_ways(ends, window, &mut list, bands, &mut painted, &mut banded) else {
        return rt.print("refused differ\n");
    };
    print_listing(rt, both.listing, &list)?;
    print_bytes(rt, "; start", &first)?;
    rt.print(", ")?;
    print_counts(rt, both.painted)?;
    print_bytes(rt, ", bytes", &painted)?;
    rt.print("; ")?;
    print_drawn(rt, second, both.banded, banded)?;
    let listed = listed_alike(ends, both.listing, list);
    let as_painted = painted_alike(placed, first, both.painted, painted);
    let as_banded = calls_alike(placed, second, bands, both.banded, banded);
    print_end(rt, listed && as_painted && as_banded)
}

// Prints by what a line is refused with a list of `n` numbers and rasters of `a` and `b` bytes. It is to be this refusal, and to
// leave all three as they were.
fn show_refused(
    rt: &impl Print,
    refusal: Refusal,
    ends: Ends,
    window: Window,
    n: usize,
    a: usize,
    b: usize,
) -> io::Result<()>
    requires { (n ≤ 15) × (a ≤ 8) × (b ≤ 8) }
{
    let mut list = LIST;
    let mut painted = MARKED_K;
    let mut banded = MARKED_G;
    let answer = draw_both_ways(
        ends,
        window,
        &mut list[..n],
        &[0, 4],
        &mut painted[..a],
        &mut banded[..b],
    );
    rt.print("both ways ")?;
    print_ends(rt, ends)?;
    print_window(rt, window)?;
    print!(rt; "list of {n} numbers, rasters of {a} and {b} bytes")?;
    let other = answer.err();
    print_answer(rt, other)?;
    let kept = list == LIST && painted == MARKED_K && banded == MARKED_G;
    print_end(rt, kept && other == Some(refusal))
}

// Prints line K refused by each number, with the later ones met as well; then by two that are met alone, where it could be listed.
fn show_order(rt: &impl Print) -> io::Result<()> {
    let column = Window {
        left: -16385,
        ..K.window
    };
    let width = Window { width: 0, ..column };
    let ends = Ends {
        x1: 16384,
        ..K.ends
    };
    show_refused(rt, Refusal::Ends, ends, width, 11, 7, 7)?;
    show_refused(rt, Refusal::WindowSize, K.ends, width, 11, 7, 7)?;
    show_refused(rt, Refusal::WindowPlace, K.ends, column, 11, 7, 7)?;
    show_refused(rt, Refusal::RasterLength, K.ends, K.window, 11, 7, 8)?;
    show_refused(rt, Refusal::RasterLength, K.ends, K.window, 11, 8, 7)?;
    show_refused(rt, Refusal::ListLength, K.ends, K.window, 11, 8, 8)?;
    let last_column = Window {
        left: 16373,
        ..K.window
    };
    show_refused(rt, Refusal::WindowPlace, K.ends, last_column, 12, 8, 8)?;
    show_refused(rt, Refusal::RasterLength, K.ends, K.window, 12, 8, 7)
}

// Prints the lines.
pub fn show_all(rt: &impl Print) -> io::Result<()> {
    show(rt, "in order", K, &[0, 1, 1, 1, 2, 1, 3, 1], CLEAR, CLEAR)?;
    show(
        rt,
        "refused among others",
        K,
        &[3, 1, 1, 3, 0, 0, 0, 2, 4, 1],
        MARKED_K,
        MARKED_K,
    )?;
    show(rt, "not in every row", K, &[2, 1, 0, 1], MARKED_K, MARKED_K)?;
    show(rt, "whole", K, &[0, 4], CLEAR, MARKED_K)?;
    show(rt, "and a number", K, &[1, 3, 4], MARKED_K, CLEAR)?;
    show(
        rt,
        "refused and whole",
        G,
        &[4, 5, 0, 8],
        MARKED_G,
        MARKED_G,
    )?;
    show(rt, "by no band", LEFTWARDS, &[], CLEAR, CLEAR)?;
    show_order(rt)
}
