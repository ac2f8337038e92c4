// Drawing a line both ways: listed and painted in one raster, band by band in another.
ghost use Rattle.std.specs.Prelude.{◌≡◌, false, List, ◌+◌, ℤ, length};
ghost use Rattle.refusal.specs.Refusal.{answer, answered, first_met, unless_refused};
ghost use Rattle.raster.specs.Window.{raster_bytes};
ghost use Rattle.drawing.specs.Drawing.{draw_raster};
ghost use Rattle.drawing.specs.Calls.{after_bands, band_list};
ghost use Rattle.line.specs.Line.{axis, short, ends_out};
ghost use Rattle.line.specs.Figure.{line_figure};
ghost use Rattle.line_list.specs.Listing.{line_list};
ghost use Rattle.both_ways.specs.EqualRaster.{EqualRaster};
ghost use Rattle.both_ways.specs.BothWays.{frames_conditions, both_met, both_values, both_answer};

use drawing::calls::BandCalls;
use drawing::counts::Counts;
use drawing::draw::{Draw, check_whole};
use line::ends::Ends;
use line_draw::draw::{LineBy, draw_bands};
use line_draw::walk::SingleStep;
use line_list::list::{Listing, list_runs};
use raster::grid::Grid;
use raster::window::Window;
use refusal::Refusal;
use runs::paint::Runs;

// What was listed, the painter's counts, and what the calls of the band drawer add up to.
#[derive(Clone, Copy)]
pub struct Both {
    pub listing: Listing,
    pub painted: Counts,
    pub banded: BandCalls,
}

// Whether the ends, the window and two rasters of these lengths are within the limits, or refusal 1, 2, 3 or 4.
fn check_frames(ends: Ends, window: Window, painted: usize, banded: usize) -> Result<(), Refusal>
    ensures { answered result ≡ answer (first_met (frames_conditions ends window painted banded)) tt }
{
    check_whole(LineBy::new(ends, SingleStep), window, painted)?;
    window.check_frame(banded)
}

// Paints the list that the lister left into one raster, and draws band by band into the other.
fn draw_listed(
    ends: Ends,
    grid: Grid,
    listing: Listing,
    list: &[i32],
    bands: &[u32],
    painted: &mut [u8],
    banded: &mut [u8],
) -> Both
    requires listed { (ends_out ends ≡ false) × (listing.axis ≡ axis ends) × (listing.runs ≡ short ends + 1) × ((rest : List ℤ) × (list.now ≡ line_list ends rest)) }
    requires room { length painted.old ≡ raster_bytes grid.window }
    ensures answered { result ≡ both_values ends grid.window painted.old banded.old bands.now }
    ensures painted_after { painted.new ≡ draw_raster (line_figure ends) grid.window painted.old }
    ensures banded_after { banded.new ≡ after_bands (line_figure ends) grid.window banded.old (band_list bands.now) }
{
    let runs = Runs {
        axis: listing.axis,
        list: &list[..3 * listing.runs as usize],
    };
    let counts = runs.mark(grid, painted);
    let calls = draw_bands(ends, grid.window, bands, banded);
    Both {
        listing,
        painted: counts,
        banded: calls,
    }
}

// Lists the line's runs and paints them into the first raster; draws the line by a list of bands, first row and number of rows,
// into the second. Where the bands that are not refused take in every row, rasters that were equal are equal again. Refused
// (1, 2, 3, 4, 5) it changes nothing.
pub fn draw_both_ways(
    ends: Ends,
    window: Window,
    list: &mut [i32],
    bands: &[u32],
    painted: &mut [u8],
    banded: &mut [u8],
) -> Result<Both, Refusal>
    ensures answered { answered result ≡ both_answer ends window list.old bands.now painted.old banded.old }
    ensures list_after { list.new ≡ unless_refused (both_met ends window list.old painted.old banded.old) (line_list ends list.old) list.old }
    ensures painted_after { painted.new ≡ unless_refused (both_met ends window list.old painted.old banded.old) (draw_raster (line_figure ends) window painted.old) painted.old }
    ensures banded_after { banded.new ≡ unless_refused (both_met ends window list.old painted.old banded.old) (after_bands (line_figure ends) window banded.old (band_list bands.now)) banded.old }
    ensures equal_raster { both_met ends window list.old painted.old banded.old ≡ 0 → banded.old ≡ painted.old → EqualRaster ends window painted.old list.old (band_list bands.now) list.new painted.new banded.new }
{
    check_frames(ends, window, painted.len(), banded.len())?;
    let listing = list_runs(ends, list)?;
    let grid = Grid { window };
    Ok(draw_listed(ends, grid, listing, list, bands, painted, banded))
}
