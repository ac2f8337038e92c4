// The single-step and the double-step drawer, whole and in bands.
ghost use Rattle.std.specs.Prelude.{◌≡◌};
ghost use Rattle.refusal.specs.Refusal.{answered};
ghost use Rattle.drawing.specs.Drawing.{draw_answer, draw_after};
ghost use Rattle.drawing.specs.Band.{band_answer, band_after};
ghost use Rattle.drawing.specs.Calls.{after_bands, band_list, band_calls};
ghost use Rattle.line.specs.Figure.{line_figure};
ghost use Rattle.line.proofs.Drawable.{line_drawable};

use crate::visible::visible_steps;
use crate::walk::{DoubleStep, SingleStep, Walk};
use crate::walker::Walker;
use drawing::band::{Band, draw_in_band};
use drawing::calls::{BandCalls, draw_by_bands};
use drawing::counts::Counts;
use drawing::draw::{Draw, draw_whole};
use line::ends::Ends;
use line::trace::line_of;
use raster::grid::Grid;
use raster::window::Window;
use refusal::Refusal;

// A line, and the walk that draws it.
#[derive(Clone, Copy)]
pub struct LineBy<W> {
    pub ends: Ends,
    pub walk: W,
}

impl<W: Walk> LineBy<W> {
    // The line between two ends, by a walk.
    pub fn new(ends: Ends, walk: W) -> LineBy<W>
        ensures { result.ends ≡ ends }
    {
        LineBy { ends, walk }
    }
}

impl<W: Walk> Draw for LineBy<W> {
    ghost figure = { λ it. line_figure it.ends };

    ghost drawable = { λ it. line_drawable it.ends };

    fn check(self) -> Result<(), Refusal> {
        self.ends.check()
    }

    // The visible steps, and the walk through them. Each operation has it in line: as a call it costs a band a third more.
    #[inline(always)]
    fn mark(self, grid: Grid, raster: &mut [u8]) -> Counts {
        let line = line_of(self.ends);
        let steps = visible_steps(line, grid);
        if steps.end <= steps.from {
            return Counts { count: 0, fresh: 0 };
        }
        let walker = Walker::enter(line, grid, steps.from);
        let fresh = W::walk(walker, steps.end, raster);
        Counts {
            count: u64::from(steps.end - steps.from),
            fresh: u64::from(fresh),
        }
    }
}

// Marks the line's pixels in the window, step by step, and answers how many they are and how many of them are fresh.
// Refused (1, 2, 3, 4) it marks none.
pub fn draw_single(ends: Ends, window: Window, raster: &mut [u8]) -> Result<Counts, Refusal>
    ensures answered { answered result ≡ draw_answer (line_figure ends) window raster.old }
    ensures raster_after { raster.new ≡ draw_after (line_figure ends) window raster.old }
{
    draw_whole(LineBy::new(ends, SingleStep), window, raster)
}

// Marks the line's pixels in the window, two steps at a time, and answers how many they are and how many of them are
// fresh. Refused (1, 2, 3, 4) it marks none.
pub fn draw_double(ends: Ends, window: Window, raster: &mut [u8]) -> Result<Counts, Refusal>
    ensures answered { answered result ≡ draw_answer (line_figure ends) window raster.old }
    ensures raster_after { raster.new ≡ draw_after (line_figure ends) window raster.old }
{
    draw_whole(LineBy::new(ends, DoubleStep), window, raster)
}

// Marks the line's pixels in the band, step by step, and answers how many they are and how many of them are fresh. Refused
// (1, 2, 3, 4, 6) it marks none.
pub fn draw_band(
    ends: Ends,
    window: Window,
    band: Band,
    raster: &mut [u8],
) -> Result<Counts, Refusal>
    ensures answered { answered result ≡ band_answer (line_figure ends) window raster.old band }
    ensures raster_after { raster.new ≡ band_after (line_figure ends) window raster.old band }
{
    draw_in_band(LineBy::new(ends, SingleStep), window, band, raster)
}

// Calls the band drawer for each band of a list of numbers, first row and number of rows, in their order. A last number alone
// is not looked at. Answers how many of the calls were refused, and how many fresh pixels all of them marked.
pub fn draw_bands(ends: Ends, window: Window, bands: &[u32], raster: &mut [u8]) -> BandCalls
    ensures value { result ≡ band_calls (line_figure ends) window raster.old (band_list bands.now) }
    ensures raster_after { raster.new ≡ after_bands (line_figure ends) window raster.old (band_list bands.now) }
{
    draw_by_bands(LineBy::new(ends, SingleStep), window, bands, raster)
}
