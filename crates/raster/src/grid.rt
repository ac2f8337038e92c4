// A window within the limits.
ghost use Rattle.std.specs.Prelude.{◌≡◌, ◌*◌, ◌≤◌};
ghost use Rattle.refusal.specs.Refusal.{first_met};
ghost use Rattle.raster.specs.Raster.{row_bytes};
ghost use Rattle.raster.specs.Window.{window_conditions};

use crate::window::Window;

// A window within the limits, as what stands below the operations takes it: an operation makes it where its test has passed.
#[derive(Clone, Copy)]
pub struct Grid {
    pub window: Window,
    pub ghost within: { first_met (window_conditions window) ≡ 0 },
}

// Its numbers are the window's, which ask nothing here: a grid has passed the test.
#[tactic(auto, using(crate::proofs::Grids::grid_in))]
impl Grid {
    // The bytes of a row.
    pub fn row_bytes(self) -> u32
        ensures { result ≡ row_bytes self.window.width }
    {
        self.window.row_bytes()
    }

    // The bits of a row, its padding among them.
    pub fn row_bits(self) -> u32
        ensures { result ≡ 8 * row_bytes self.window.width }
    {
        self.window.row_bits()
    }

    // The place of the first byte of row `row`, which is the raster's length for the row after the last.
    pub fn row_start(self, row: u32) -> usize
        requires { row ≤ self.window.height }
        ensures { result ≡ row * row_bytes self.window.width }
    {
        self.window.row_start(row)
    }
}
