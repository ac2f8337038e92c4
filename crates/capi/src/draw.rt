// Drawing a line.
ghost use Rattle.std.specs.Prelude.{◌≡◌};
ghost use Rattle.drawing.specs.Drawing.{draw_answer, draw_after};
ghost use Rattle.drawing.specs.Band.{band_from, band_answer, band_after};
ghost use Rattle.line.specs.Figure.{line_figure};
ghost use Rattle.capi.specs.Answers.{drawn_numbers};

use crate::answers::TcDrawn;
use drawing::band::Band;
use line::ends::Ends;
use line_draw::draw::{draw_band, draw_double, draw_single};
use raster::window::Window;

// Marks the line's pixels in the window and answers how many they are and how many of them are fresh, as
// `line_draw::draw::draw_single` does.
#[unsafe(no_mangle)]
pub extern "C" fn tc_draw_single(ends: Ends, window: Window, raster: &mut [u8]) -> TcDrawn
    ensures value { result ≡ drawn_numbers (draw_answer (line_figure ends) window raster.old) }
    ensures raster_after { raster.new ≡ draw_after (line_figure ends) window raster.old }
{
    draw_single(ends, window, raster).into()
}

// The same by double steps, as `line_draw::draw::draw_double` does.
#[unsafe(no_mangle)]
pub extern "C" fn tc_draw_double(ends: Ends, window: Window, raster: &mut [u8]) -> TcDrawn
    ensures value { result ≡ drawn_numbers (draw_answer (line_figure ends) window raster.old) }
    ensures raster_after { raster.new ≡ draw_after (line_figure ends) window raster.old }
{
    draw_double(ends, window, raster).into()
}

// Marks the line's pixels in a band's rows alone, as `line_draw::draw::draw_band` does.
#[unsafe(no_mangle)]
pub extern "C" fn tc_draw_band(
    ends: Ends,
    window: Window,
    first: u32,
    rows: u32,
    raster: &mut [u8],
) -> TcDrawn
    ensures value { result ≡ drawn_numbers (band_answer (line_figure ends) window raster.old (band_from first rows)) }
    ensures raster_after { raster.new ≡ band_after (line_figure ends) window raster.old (band_from first rows) }
{
    draw_band(ends, window, Band { first, rows }, raster).into()
}
