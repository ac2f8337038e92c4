// The strides of a walk: how far a step moves the bit of a line's pixel in a window's raster.
ghost use Rattle.std.specs.Prelude.{◌≡◌, cond, ◌+◌, ◌≤◌};
ghost use Rattle.line_draw.specs.Walk.{Moves};

use line::trace::{Line, along};
use raster::grid::Grid;

// What a stride adds to the bit and what it takes from it.
#[derive(Clone, Copy)]
pub struct Stride {
    pub on: usize,
    pub back: usize,
}

// The stride of a flat step, along the long axis, and what a diagonal one has besides, across it.
#[derive(Clone, Copy)]
pub struct Strides {
    pub flat: Stride,
    pub across: Stride,
}

impl Strides {
    // The stride of a diagonal step.
    pub fn diagonal(self) -> Stride
        requires { (self.flat.on ≤ 65536) × (self.flat.back ≤ 65536) × (self.across.on ≤ 65536) × (self.across.back ≤ 65536) }
        ensures { (result.on ≡ self.flat.on + self.across.on) × (result.back ≡ self.flat.back + self.across.back) }
    {
        Stride {
            on: self.flat.on + self.across.on,
            back: self.flat.back + self.across.back,
        }
    }
}

// The stride of one more on a way, where one more of its coordinate is worth `bits`.
fn stride_of(grows: bool, bits: usize) -> Stride
    ensures { (result.on ≡ cond grows bits 0) × (result.back ≡ cond grows 0 bits) }
{
    if grows {
        return Stride { on: bits, back: 0 };
    }
    Stride { on: 0, back: bits }
}

// The strides of the line's direction in the grid's raster.
pub fn strides_of(line: Line, grid: Grid) -> Strides
    ensures { Moves line.ends grid.window result }
{
    let column = stride_of(line.columns.grows, 1);
    let row = stride_of(line.rows.grows, grid.row_bits() as usize);
    Strides {
        flat: along(line.axis, column, row),
        across: along(line.axis, row, column),
    }
}
