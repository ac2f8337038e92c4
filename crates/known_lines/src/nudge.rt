// Document 02, 6/13: two lines with the same first end, long axis and L, at least 1, whose second ends are d apart in the short
// coordinate only. At step i their pixels are at most i × d / L apart, rounded up.
ghost use Rattle.std.specs.Prelude.{◌<◌, ◌≤◌};

use crate::distance::gap;
use crate::print::{print_end, print_ends};
use crate::small::{LIST, list_line};
use line::ends::Ends;
use std::io;

// The short coordinate at step `i`, none where the line does not have the step: the list's runs are in the line's order, each with
// a step for each of its pixels.
fn short_at(runs: &[[i32; 3]], i: u32) -> Option<i32> {
    let mut left = i;
    for &[across, _, pixels] in runs {
        let pixels = u32::try_from(pixels).unwrap_or(0);
        if left < pixels {
            return Some(across);
        }
        left -= pixels;
    }
    None
}

// How far apart the second ends are, and how many steps each line has after the first.
#[derive(Clone, Copy)]
struct Apart {
    d: u32,
    l: u32,
    ghost d_in: { d < 32768 },
    ghost l_in: { l < 32768 },
}

impl Apart {
    // How far apart the lines may be at step `i`: i × d / L, rounded up.
    fn most_at(self, i: u32) -> u32
        requires { i ≤ self.l }
    {
        if self.l == 0 {
            return 0;
        }
        (i * self.d).div_ceil(self.l)
    }
}

// Prints a text, then the short coordinates at steps 0 to L, and answers whether the line has these steps and no more.
fn print_steps(rt: &impl Print, text: &str, runs: &[[i32; 3]], apart: Apart) -> io::Result<bool> {
    let l = apart.l;
    rt.print(text)?;
    for i in 0..=l {
        match short_at(runs, i) {
            Some(short) => print!(rt; " {short}")?,
            None => rt.print(" ?")?,
        }
    }
    Ok(short_at(runs, l).is_some() && short_at(runs, l + 1).is_none())
}

// Prints how far apart the lines may be at steps 0 to L, and answers whether they are no further apart at any.
fn print_most(rt: &impl Print, a: &[[i32; 3]], b: &[[i32; 3]], apart: Apart) -> io::Result<bool> {
    rt.print(", at most")?;
    let mut near = true;
    for i in 0..=apart.l {
        let most = apart.most_at(i);
        print!(rt; " {most}")?;
        near &= match (short_at(a, i), short_at(b, i)) {
            (Some(x), Some(y)) => gap(x, y) <= most,
            _ => false,
        };
    }
    rt.print(" apart")?;
    Ok(near)
}

// Prints the lines' short coordinates and how far apart they may be.
fn print_lines(rt: &impl Print, first: Ends, second: Ends, apart: Apart) -> io::Result<()> {
    let mut a = [0i32; LIST];
    let mut b = [0i32; LIST];
    let a = list_line(first, &mut a);
    let b = list_line(second, &mut b);
    let first_whole = print_steps(rt, ": short", a, apart)?;
    let second_whole = print_steps(rt, " and", b, apart)?;
    let near = print_most(rt, a, b, apart)?;
    print_end(rt, first_whole && second_whole && near)
}

// Prints the lines from (x0,y0) to (x1,y1) and to (x2,y2).
fn show(rt: &impl Print, x0: i32, y0: i32, x1: i32, y1: i32, x2: i32, y2: i32) -> io::Result<()> {
    let first = Ends { x0, y0, x1, y1 };
    let second = Ends {
        x0,
        y0,
        x1: x2,
        y1: y2,
    };
    rt.print("nudge ")?;
    print_ends(rt, first)?;
    print!(rt; " and ({x2},{y2})")?;
    let dx = gap(x0, x1);
    let dy = gap(y0, y1);
    // Where the rows are further apart than the columns, the short coordinate is the column, else the row.
    let d = if dx < dy { gap(x1, x2) } else { gap(y1, y2) };
    let apart = Apart { d, l: dx.max(dy) };
    print_lines(rt, first, second, apart)
}

// Prints the nudges.
pub fn show_all(rt: &impl Print) -> io::Result<()> {
    show(rt, 0, 0, 2, 1, 2, -1)?;
    show(rt, 0, 0, 2, 0, 2, 1)?;
    show(rt, 0, 0, 6, 3, 6, 2)?;
    show(rt, 0, 0, 1, 4, -1, 4)?;
    show(rt, 3, -2, -3, 1, -3, -5)?;
    show(rt, 0, 0, -2, -4, 0, -4)?;
    show(rt, 0, 0, 5, 5, 5, -5)
}
