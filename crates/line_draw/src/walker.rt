// A walker steps through a line's pixels in a window, one by one or two at a time. Its place is the number of a bit of the
// raster, so the same steps serve all eight directions; every step lies in the window, so it tests nothing but the decision
// number.
ghost use Rattle.std.specs.Prelude.{◌≡◌, true, ◌+◌, ◌*◌, ◌≤◌, ◌<◌};
ghost use Rattle.line_draw.specs.Walk.{seen, step_bit, Shown, Stands, Walking};
ghost use Rattle.line_draw.specs.Pairs.{Pair};

use crate::stride::{Strides, strides_of};
use coordinate::Coordinate;
use line::trace::{Line, along};
use raster::grid::Grid;
use raster::mark::bit_of;

// Where a walk stands: the bit of a step's pixel, and the step's decision number, which is at most 2L (`Bounded`).
#[derive(Clone, Copy)]
pub struct Spot {
    pub bit: usize,
    pub decision: u32,
}

// Two steps on: the bit between them, the bit after them and its decision number.
#[derive(Clone, Copy)]
struct Two {
    middle: usize,
    bit: usize,
    decision: u32,
}

// A walk through a line in a window, and the step at which it stands.
#[derive(Clone, Copy)]
pub struct Walker {
    pub line: Line,
    pub grid: Grid,
    pub strides: Strides,
    pub step: u32,
    pub spot: Spot,
    pub ghost walking: { Walking line.ends grid.window strides step spot },
}

// The spot of step `i`, which lies in the window.
fn spot_of(line: Line, grid: Grid, i: u32) -> Spot
    requires { (i ≤ line.slope.long) × (seen line.ends grid.window i ≡ true) }
    ensures { Stands line.ends grid.window i result }
{
    let short = line.slope.short_at(i);
    let decision = short.decision;
    let x = line.columns.at(along(line.axis, i, short.distance));
    let y = line.rows.at(along(line.axis, short.distance, i));
    let column = x - Coordinate::biased(grid.window.left);
    let row = y - Coordinate::biased(grid.window.top);
    let bit = bit_of(grid.window, column, row);
    Spot { bit, decision }
}

impl Walker {
    ghost use Rattle.line_draw.specs.Walker.{Ahead};

    // Stands at step `step`, which lies in the window.
    pub fn enter(line: Line, grid: Grid, step: u32) -> Walker
        requires { (step ≤ line.slope.long) × (seen line.ends grid.window step ≡ true) }
        ensures { (result.line ≡ line) × (result.grid.window ≡ grid.window) × (result.step ≡ step) }
    {
        let strides = strides_of(line, grid);
        let spot = spot_of(line, grid, step);
        Walker {
            line,
            grid,
            strides,
            step,
            spot,
        }
    }

    // The spot of the next step, which lies in the window.
    fn next(self) -> Spot
        requires { Shown self.line.ends self.grid.window self.step (self.step + 2) }
        ensures { Stands self.line.ends self.grid.window (self.step + 1) result }
    {
        let flat = self.strides.flat;
        let diagonal = self.strides.diagonal();
        let bit = self.spot.bit;
        let decision = self.spot.decision;
        let twice = 2 * self.line.slope.short;
        let turn = 2 * self.line.slope.long - twice;
        if turn <= decision {
            return Spot {
                bit: bit + diagonal.on - diagonal.back,
                decision: decision - turn,
            };
        }
        Spot {
            bit: bit + flat.on - flat.back,
            decision: decision + twice,
        }
    }

    // One step on, within the window.
    pub fn advance(&mut self)
        requires { Shown self.old.line.ends self.old.grid.window self.old.step (self.old.step + 2) }
        ensures { Ahead 1 self.old self.new }
    {
        self.spot = self.next();
        self.step += 1;
    }

    // Two steps on of which one is diagonal: flat first, or diagonal first.
    fn mixed(self) -> Two
        requires shown { Shown self.line.ends self.grid.window self.step (self.step + 3) }
        requires one_diagonal { (2 * self.line.slope.long ≤ self.spot.decision + 4 * self.line.slope.short) × (self.spot.decision + 4 * self.line.slope.short < 4 * self.line.slope.long) }
        ensures { Pair self.line.ends self.grid.window self.step result }
    {
        let flat = self.strides.flat;
        let diagonal = self.strides.diagonal();
        let bit = self.spot.bit;
        let decision = self.spot.decision;
        let twice = 2 * self.line.slope.short;
        let turn = 2 * self.line.slope.long;
        let after = bit + (flat.on + diagonal.on) - (flat.back + diagonal.back);
        if decision < turn - twice {
            return Two {
                middle: bit + flat.on - flat.back,
                bit: after,
                decision: decision + 2 * twice - turn,
            };
        }
        Two {
            middle: bit + diagonal.on - diagonal.back,
            bit: after,
            decision: decision + 2 * twice - turn,
        }
    }

    // Two steps on of a line with 2S below L: two flat ones, or one of each.
    fn shallow(self) -> Two
        requires shown { Shown self.line.ends self.grid.window self.step (self.step + 3) }
        requires short_bound { 2 * self.line.slope.short < self.line.slope.long }
        ensures { Pair self.line.ends self.grid.window self.step result }
    {
        let flat = self.strides.flat;
        let bit = self.spot.bit;
        let decision = self.spot.decision;
        let four = 4 * self.line.slope.short;
        let turn = 2 * self.line.slope.long;
        if decision < turn - four {
            return Two {
                middle: bit + flat.on - flat.back,
                bit: bit + (flat.on + flat.on) - (flat.back + flat.back),
                decision: decision + four,
            };
        }
        self.mixed()
    }

    // Two steps on of a line with 2S at least L: two diagonal ones, or one of each.
    fn steep(self) -> Two
        requires shown { Shown self.line.ends self.grid.window self.step (self.step + 3) }
        requires long_bound { self.line.slope.long ≤ 2 * self.line.slope.short }
        ensures { Pair self.line.ends self.grid.window self.step result }
    {
        let diagonal = self.strides.diagonal();
        let bit = self.spot.bit;
        let decision = self.spot.decision;
        let turns = 4 * self.line.slope.long - 4 * self.line.slope.short;
        if decision >= turns {
            return Two {
                middle: bit + diagonal.on - diagonal.back,
                bit: bit + (diagonal.on + diagonal.on) - (diagonal.back + diagonal.back),
                decision: decision - turns,
            };
        }
        self.mixed()
    }

    // Two steps on, within the window.
    fn two(self) -> Two
        requires { Shown self.line.ends self.grid.window self.step (self.step + 3) }
        ensures { Pair self.line.ends self.grid.window self.step result }
    {
        if 2 * self.line.slope.short < self.line.slope.long {
            return self.shallow();
        }
        self.steep()
    }

    // A pair of steps on, within the window. Answers the bit between them.
    pub fn advance_pair(&mut self) -> usize
        requires { Shown self.old.line.ends self.old.grid.window self.old.step (self.old.step + 3) }
        ensures middle { result ≡ step_bit self.old.line.ends self.old.grid.window (self.old.step + 1) }
        ensures ahead { Ahead 2 self.old self.new }
    {
        let two = self.two();
        self.spot = Spot {
            bit: two.bit,
            decision: two.decision,
        };
        self.step += 2;
        two.middle
    }
}
