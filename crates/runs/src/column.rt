// Filling a part of a column, row by row.
ghost use Rattle.std.specs.Prelude.{◌≡◌, ◌+◌, ◌≤◌, ◌<◌, length};
ghost use Rattle.coordinate.specs.declared.axis.Axis.TheVariants.{Y};
ghost use Rattle.raster.specs.Raster.{plus};
ghost use Rattle.raster.specs.Fresh.{bit_count};
ghost use Rattle.raster.specs.Window.{raster_bytes};
ghost use Rattle.runs.specs.Run.{in_run};
ghost use Rattle.runs.specs.Parts.{down_from};

use raster::grid::Grid;
use raster::mark::{MASK, bit_of, put_bit};

// Marks the grid's `n` pixels of column `column` from row `row` on, both counted from 0 at left and top, and answers how many
// bits that adds.
pub fn fill_column(grid: Grid, column: u32, row: u32, n: u32, raster: &mut [u8]) -> u32
    requires { (length raster.old ≡ raster_bytes grid.window) × (column < grid.window.width) × (1 ≤ n) × (row + n ≤ grid.window.height) }
    ensures raster_after { raster.new ≡ plus grid.window raster.old (in_run Y (down_from grid.window column row n)) }
    ensures bits_grow { bit_count raster.new ≡ bit_count raster.old + result }
{
    let mask = MASK;
    let stride = grid.row_bits() as usize;
    let mut bit = bit_of(grid.window, column, row);
    let mut fresh: u32 = 0;
    for _ in 0..n {
        fresh += put_bit(&mask, bit, raster);
        bit += stride;
    }
    fresh
}
