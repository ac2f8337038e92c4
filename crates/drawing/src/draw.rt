// Drawing a figure in a window.
ghost use Rattle.std.specs.Prelude.{◌≡◌, length};
ghost use Rattle.refusal.specs.Refusal.{answer, answered, first_met};
ghost use Rattle.raster.specs.Window.{raster_bytes};
ghost use Rattle.drawing.specs.Figure.{Figure, Drawable};
ghost use Rattle.drawing.specs.Drawing.{draw_counts, draw_raster, draw_conditions, draw_answer, draw_after};

use crate::counts::Counts;
use raster::grid::Grid;
use raster::window::Window;
use refusal::Refusal;

// What can be drawn, and how: it tests what refuses it, and marks its pixels in a grid, which cannot refuse.
pub trait Draw: Copy {
    // The figure that is drawn.
    ghost figure: { Self → Figure };

    // Whether the figure is within its limits, or its refusal.
    fn check(self) -> Result<(), Refusal>
        ensures { answered result ≡ answer (first_met (figure self).refusals) tt };

    // Marks the figure's pixels in the grid, and answers how many they are and how many of them are fresh.
    fn mark(self, grid: Grid, raster: &mut [u8]) -> Counts
        requires { (first_met (figure self).refusals ≡ 0) × (length raster.old ≡ raster_bytes grid.window) }
        ensures value { result ≡ draw_counts (figure self) grid.window raster.old }
        ensures raster_after { raster.new ≡ draw_raster (figure self) grid.window raster.old };

    ghost drawable: { (drawing : Self) → Drawable (figure drawing) };
}

// Whether a figure, a window and a raster of `length` bytes are within the limits, or the figure's refusal, 2, 3 or 4.
pub fn check_whole<D: Draw>(drawing: D, window: Window, length: usize) -> Result<(), Refusal>
    ensures { answered result ≡ answer (first_met (draw_conditions (D.figure drawing) window length)) tt }
{
    drawing.check()?;
    window.check_frame(length)
}

// Marks a figure's pixels in the window, and answers how many they are and how many of them are fresh. Refused (by the figure's own
// conditions, 2, 3, 4) it marks none.
pub fn draw_whole<D: Draw>(drawing: D, window: Window, raster: &mut [u8]) -> Result<Counts, Refusal>
    ensures answered { answered result ≡ draw_answer (D.figure drawing) window raster.old }
    ensures raster_after { raster.new ≡ draw_after (D.figure drawing) window raster.old }
{
    check_whole(drawing, window, raster.len())?;
    Ok(drawing.mark(Grid { window }, raster))
}
