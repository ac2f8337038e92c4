// Drawing a figure in a band of a window.
ghost use Rattle.std.specs.Prelude.{◌≡◌, false, length};
ghost use Rattle.refusal.specs.Refusal.{answer, answered, first_met};
ghost use Rattle.raster.specs.Window.{raster_bytes};
ghost use Rattle.drawing.specs.Band.{window_of_band, band_out, rows_conditions, band_conditions, band_counts, band_raster, band_answer, band_after};

use crate::counts::Counts;
use crate::draw::Draw;
use raster::grid::Grid;
use raster::window::Window;
use refusal::Refusal;

// A band of a window: some of its rows, drawn at once. Its first row, counted from 0 at the window's top, and its number of rows.
#[derive(Clone, Copy)]
pub struct Band {
    pub first: u32,
    pub rows: u32,
}

impl Band {
    // Whether the band has no rows or ends below the window. Its rows are taken from the height, since its first row and their
    // number may be too large to add.
    pub fn out(self, window: Window) -> bool
        ensures { result ≡ band_out window self }
    {
        if self.rows == 0 {
            return true;
        }
        window.height < self.rows || window.height - self.rows < self.first
    }

    // Whether the window, a raster of `length` bytes and the band are within the limits, or refusal 2, 3, 4 or 6.
    pub fn check(self, window: Window, length: usize) -> Result<(), Refusal>
        ensures { answered result ≡ answer (first_met (rows_conditions window length self)) tt }
    {
        window.check_frame(length)?;
        if self.out(window) {
            return Err(Refusal::Rows);
        }
        Ok(())
    }

    // The grid of the band's rows.
    fn grid(self, grid: Grid) -> Grid
        requires { band_out grid.window self ≡ false }
        ensures { result.window ≡ window_of_band grid.window self }
    {
        let window = Window {
            left: grid.window.left,
            top: grid.window.top + self.first as i32,
            width: grid.window.width,
            height: self.rows,
        };
        Grid { window }
    }
}

// Whether a figure, a window, a raster of `length` bytes and a band are within the limits, or the figure's refusal, 2, 3, 4 or 6.
fn check_band<D: Draw>(drawing: D, window: Window, band: Band, length: usize) -> Result<(), Refusal>
    ensures { answered result ≡ answer (first_met (band_conditions (D.figure drawing) window length band)) tt }
{
    drawing.check()?;
    band.check(window, length)
}

// Marks the figure's pixels in the band's rows, a part of the raster, with the window of these rows.
pub fn mark_band<D: Draw>(drawing: D, grid: Grid, band: Band, raster: &mut [u8]) -> Counts
    requires passed { (first_met (D.figure drawing).refusals ≡ 0) × (band_out grid.window band ≡ false) }
    requires room { length raster.old ≡ raster_bytes grid.window }
    ensures value { result ≡ band_counts (D.figure drawing) grid.window raster.old band }
    ensures raster_after { raster.new ≡ band_raster (D.figure drawing) grid.window band raster.old }
{
    let from = grid.row_start(band.first);
    let end = grid.row_start(band.first + band.rows);
    drawing.mark(band.grid(grid), &mut raster[from..end])
}

// Marks a figure's pixels in the band, and answers how many they are and how many of them are fresh. Refused (by the figure's own
// conditions, 2, 3, 4, 6) it marks none.
pub fn draw_in_band<D: Draw>(
    drawing: D,
    window: Window,
    band: Band,
    raster: &mut [u8],
) -> Result<Counts, Refusal>
    ensures answered { answered result ≡ band_answer (D.figure drawing) window raster.old band }
    ensures raster_after { raster.new ≡ band_after (D.figure drawing) window raster.old band }
{
    check_band(drawing, window, band, raster.len())?;
    Ok(mark_band(drawing, Grid { window }, band, raster))
}
