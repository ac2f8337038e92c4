// Document 01's limits on ends, width and list, at their edges.
ghost use Rattle.std.specs.Prelude.{◌≤◌};

use crate::drawers::{alike, bytes, on_clear};
use crate::placed::K;
use crate::print::{print_answer, print_end};
use line::ends::Ends;
use line_draw::draw::draw_single;
use line_list::list::list_runs;
use raster::window::Window;
use refusal::Refusal;
use std::io;

// The refusal that the single-step drawer answers on a raster of the window's length, none where it draws.
fn draw_refusal(ends: Ends, window: Window) -> Option<Refusal> {
    on_clear(bytes(window), |raster| {
        draw_single(ends, window, raster).err()
    })
    .flatten()
}

// The refusal that the lister answers with a list of `n` numbers, none where it lists.
fn list_refusal(ends: Ends, n: usize) -> Option<Refusal>
    requires { n ≤ 12 }
{
    let mut list = [0i32; 12];
    list_runs(ends, &mut list[..n]).err()
}

// The refusal that the window's maker answers, none where it makes the window.
fn maker_refusal(window: Window) -> Option<Refusal> {
    Window::new(window.left, window.top, window.width, window.height).err()
}

// Prints the single-step drawer's answer and ends the line, with `differ` unless all drawers are alike and `other` is the same.
fn print_drawers(
    rt: &impl Print,
    ends: Ends,
    window: Window,
    other: Option<Refusal>,
) -> io::Result<()> {
    let refusal = draw_refusal(ends, window);
    print_answer(rt, refusal)?;
    print_end(rt, alike(ends, window, refusal) && other == refusal)
}

// A line from (0,0) to a column of row 0, by every drawer and the lister.
fn show_end(rt: &impl Print, name: &str, column: i32) -> io::Result<()> {
    rt.print(name)?;
    let ends = Ends {
        x0: 0,
        y0: 0,
        x1: column,
        y1: 0,
    };
    let window = Window {
        left: 16376,
        top: 0,
        width: 8,
        height: 1,
    };
    print_drawers(rt, ends, window, list_refusal(ends, 12))
}

// A window of one row and this width, by the window's maker and every drawer.
fn show_width(rt: &impl Print, width: u32) -> io::Result<()> {
    print!(rt; "width {width}")?;
    let ends = Ends {
        x0: 0,
        y0: 0,
        x1: 8191,
        y1: 0,
    };
    let window = Window {
        left: 0,
        top: 0,
        width,
        height: 1,
    };
    print_drawers(rt, ends, window, maker_refusal(window))
}

// Line H with a list of `n` numbers.
fn show_list(rt: &impl Print, n: usize) -> io::Result<()>
    requires { n ≤ 12 }
{
    print!(rt; "line H's list of {n} numbers")?;
    print_answer(rt, list_refusal(K.ends, n))?;
    rt.print("\n")
}

// Prints each limit that the document gives, with its answer.
pub fn show_all(rt: &impl Print) -> io::Result<()> {
    show_end(rt, "end (16383,0)", 16383)?;
    show_end(rt, "end (16384,0)", 16384)?;
    show_width(rt, 8192)?;
    show_width(rt, 0)?;
    show_width(rt, 8193)?;
    show_list(rt, 12)?;
    show_list(rt, 11)
}
