// Drawing a figure by a list of bands.
ghost use Rattle.std.specs.Prelude.{◌≡◌};
ghost use Rattle.drawing.specs.Calls.{after_bands, band_list, band_calls};

use crate::band::{Band, draw_in_band};
use crate::draw::Draw;
use raster::window::Window;

// What a list of calls adds up to: how many of them were refused, and how many fresh pixels all of them marked.
#[derive(Clone, Copy)]
pub struct BandCalls {
    pub refused: usize,
    pub fresh: u64,
}

// Calls the band drawer for each band of a list of numbers, first row and number of rows, in their order. A last number alone
// is not looked at. Answers how many of the calls were refused, and how many fresh pixels all of them marked.
pub fn draw_by_bands<D: Draw>(
    drawing: D,
    window: Window,
    bands: &[u32],
    raster: &mut [u8],
) -> BandCalls
    ensures value { result ≡ band_calls (D.figure drawing) window raster.old (band_list bands.now) }
    ensures raster_after { raster.new ≡ after_bands (D.figure drawing) window raster.old (band_list bands.now) }
{
    let (pairs, _) = bands.as_chunks::<2>();
    let mut refused: usize = 0;
    let mut fresh: u64 = 0;
    for &[first, rows] in pairs {
        match draw_in_band(drawing, window, Band { first, rows }, raster) {
            Ok(counts) => fresh += counts.fresh,
            Err(_) => refused += 1,
        }
    }
    BandCalls { refused, fresh }
}
