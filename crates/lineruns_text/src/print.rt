// Printing a line's list, or its refusal.
ghost use Rattle.std.specs.Prelude.{◌≡◌, false, ℕ, ◌*◌, ◌/◌, ◌<◌, length};
ghost use Rattle.counting.specs.Count.{each};
ghost use Rattle.coordinate.specs.Coordinate.{along};
ghost use Rattle.runs.specs.Painting.{run_at, run_bad};
ghost use Rattle.lineruns_text.specs.Writing.{axis_text, refused_line, run_line, run_lines};
ghost use Rattle.lineruns_text.specs.Written.{HasRoom, Appended};

use crate::text::Text;
use coordinate::Axis;

// The letter of an axis.
pub(crate) fn letter(axis: Axis) -> u8
    ensures { result ≡ along axis 120 121 }
{
    match axis {
        Axis::X => b'x',
        Axis::Y => b'y',
    }
}

impl Text<'_> {
    // Appends the line of the refusal of number `n`. It is a call of its own: in line, LLVM would copy the number's digits by the C
    // library's `memcpy`.
    #[inline(never)]
    pub fn push_refused(&mut self, n: u32)
        requires { HasRoom self.old (length (refused_line n)) }
        ensures { Appended (refused_line n) self.old self.new }
    {
        self.push(b"refused ");
        self.push_number(n, b"\n");
    }

    // Appends the line of an axis, by its letter, and the number of runs.
    pub fn push_axis(&mut self, letter: u8, runs: u32)
        requires { HasRoom self.old (length (axis_text letter runs)) }
        ensures { Appended (axis_text letter runs) self.old self.new }
    {
        self.push(b"axis ");
        self.push(&[letter]);
        self.push(b" runs ");
        self.push_number(runs, b"\n");
    }

    // Appends a run's line: its short coordinate, its lowest long coordinate, its number of pixels.
    pub fn push_run(&mut self, across: i32, lowest: i32, pixels: u32)
        requires { HasRoom self.old (length (run_line (record { across = across; lowest = lowest; pixels = pixels }))) }
        ensures { Appended (run_line (record { across = across; lowest = lowest; pixels = pixels })) self.old self.new }
    {
        self.push_signed(across);
        self.push(b" ");
        self.push_signed(lowest);
        self.push(b" ");
        self.push_decimal(pixels);
        self.push(b"\n");
    }

    // Appends the lines of a list's runs. A run within the limits makes a line of at most 20 bytes.
    pub fn push_runs(&mut self, list: &[i32])
        requires good { (k : ℕ) → k < length list.now / 3 → run_bad list.now k ≡ false }
        requires room { HasRoom self.old (20 * (length list.now / 3)) }
        ensures { Appended (run_lines (each (length list.now / 3) (run_at list.now))) self.old self.new }
    {
        let (runs, _) = list.as_chunks::<3>();
        for &[across, lowest, pixels] in runs {
            self.push_run(across, lowest, pixels as u32);
        }
    }
}
