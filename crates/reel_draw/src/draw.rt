// Drawing a frame's marks.
ghost use Rattle.std.specs.Prelude.{◌≡◌, false, ◌+◌, ◌≤◌, ◌<◌, length};
ghost use Rattle.refusal.specs.Refusal.{answered};
ghost use Rattle.raster.specs.Window.{raster_bytes};
ghost use Rattle.drawing.specs.Band.{band_out, band_counts, band_raster};
ghost use Rattle.reel.specs.Reel.{coordinates_out};
ghost use Rattle.reel.specs.Reading.{records_in};
ghost use Rattle.reel_draw.specs.Records.{records_figure};
ghost use Rattle.reel_draw.specs.Drawing.{frame_answer, frame_after};

use crate::records::Records;
use drawing::band::{Band, mark_band};
use drawing::counts::Counts;
use raster::grid::Grid;
use raster::window::Window;
use reel::find::{FramePart, find_frame};
use refusal::Refusal;

// Marks the pixels of the lines of the records in a part of the file, in a band, and answers their counts.
fn mark_part(file: &[u8], part: FramePart, grid: Grid, band: Band, raster: &mut [u8]) -> Counts
    requires records { (part.place + part.len ≤ length file.now) × (coordinates_out (records_in file.now part) ≡ false) × (length file.now < 65537) }
    requires band { (band_out grid.window band ≡ false) × (length raster.old ≡ raster_bytes grid.window) }
    ensures value { result ≡ band_counts (records_figure (records_in file.now part)) grid.window raster.old band }
    ensures raster_after { raster.new ≡ band_raster (records_figure (records_in file.now part)) grid.window band raster.old }
{
    let place = part.place as usize;
    let end = place + part.len as usize;
    let records = Records {
        bytes: &file[place..end],
    };
    mark_band(records, grid, band, raster)
}

// Marks the pixels of the lines of frame `frame`, counted from 0, in the band, and answers their counts; none for a frame that the
// file does not have. Refused (2, 3, 4, 6, 10, 11, 12) it marks none.
pub fn draw_frame(
    file: &[u8],
    frame: u32,
    window: Window,
    band: Band,
    raster: &mut [u8],
) -> Result<Option<Counts>, Refusal>
    ensures answered { answered result ≡ frame_answer file.now frame window raster.old band }
    ensures raster_after { raster.new ≡ frame_after file.now frame window raster.old band }
{
    band.check(window, raster.len())?;
    let Some(part) = find_frame(file, frame)? else {
        return Ok(None);
    };
    Ok(Some(mark_part(file, part, Grid { window }, band, raster)))
}
