// Document 02, 6/13: a line and the line with its ends exchanged have the same pixels, and their lists the same runs in
// reverse order.
use crate::drawers::alike;
use crate::lettered::print_runs;
use crate::print::{print_counts, print_end, print_ends};
use crate::small::{BYTES, LIST, WINDOW, list_line};
use drawing::counts::Counts;
use line::ends::Ends;
use line_draw::draw::{draw_double, draw_single};
use refusal::Refusal;
use std::io;

// Prints a drawer's counts and answers them. A refusal has counts of 0.
fn print_drawn(rt: &impl Print, drawn: Result<Counts, Refusal>) -> io::Result<Counts> {
    match drawn {
        Ok(counts) => {
            rt.print("; ")?;
            print_counts(rt, counts)?;
            Ok(counts)
        }
        Err(_) => {
            rt.print("; refused")?;
            Ok(Counts { count: 0, fresh: 0 })
        }
    }
}

// Whether two lists have the same runs in reverse order.
fn reverse(a: &[[i32; 3]], b: &[[i32; 3]]) -> bool {
    a.len() == b.len() && a.iter().zip(b.iter().rev()).all(|(x, y)| x == y)
}

// Whether the line with its ends exchanged, drawn on the raster of the other, has as many pixels and none is fresh, so that
// both have the same pixels; and whether all drawers draw each of the two alike.
fn same_pixels(ends: Ends, first: Counts, back: Ends, second: Counts) -> bool {
    let same = Counts {
        count: first.count,
        fresh: 0,
    };
    second == same && alike(ends, WINDOW, None) && alike(back, WINDOW, None)
}

// Prints a line and the line with its ends exchanged, each listed, and drawn on the same raster.
fn show(rt: &impl Print, x0: i32, y0: i32, x1: i32, y1: i32) -> io::Result<()> {
    let ends = Ends { x0, y0, x1, y1 };
    let back = Ends {
        x0: x1,
        y0: y1,
        x1: x0,
        y1: y0,
    };
    let mut raster = [0u8; BYTES];
    let mut a = [0i32; LIST];
    let mut b = [0i32; LIST];
    let a_runs = list_line(ends, &mut a);
    let b_runs = list_line(back, &mut b);
    rt.print("exchanged ")?;
    print_ends(rt, ends)?;
    rt.print(": runs")?;
    print_runs(rt, a_runs)?;
    let first = print_drawn(rt, draw_single(ends, WINDOW, &mut raster))?;
    rt.print("; back runs")?;
    print_runs(rt, b_runs)?;
    let second = print_drawn(rt, draw_double(back, WINDOW, &mut raster))?;
    let reversed = reverse(a_runs, b_runs);
    print_end(rt, reversed && same_pixels(ends, first, back, second))
}

// Prints the lines.
pub fn show_all(rt: &impl Print) -> io::Result<()> {
    show(rt, 0, 0, 2, 1)?;
    show(rt, 0, 0, 4, -2)?;
    show(rt, 0, 0, -2, 4)?;
    show(rt, 3, -2, -3, 1)?;
    show(rt, 5, 5, 5, 5)
}
