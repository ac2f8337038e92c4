// The records of a frame, and drawing their lines, read where they stand.
ghost use Rattle.std.specs.Prelude.{◌≡◌, false, ◌/◌, ◌≤◌, ◌<◌, length};
ghost use Rattle.raster.specs.Window.{raster_bytes};
ghost use Rattle.drawing.specs.Drawing.{draw_counts, draw_raster};
ghost use Rattle.line.specs.Figure.{line_figure};
ghost use Rattle.reel.specs.Reel.{coordinates_out, coordinates};
ghost use Rattle.reel_draw.specs.Records.{record_line, records_figure, records_drawable};

use drawing::counts::Counts;
use drawing::draw::Draw;
use line::ends::Ends;
use line_draw::draw::LineBy;
use line_draw::walk::SingleStep;
use raster::grid::Grid;
use reel::coordinates::coordinate_at;
use refusal::Refusal;

// The records of a frame, by their bytes, as an accepted file has them.
#[derive(Clone, Copy)]
pub struct Records<'a> {
    pub bytes: &'a [u8],
    pub ghost in_range: { coordinates_out (coordinates bytes.now) ≡ false },
    pub ghost few: { length bytes.now ≤ 65536 },
}

impl Records<'_> {
    // The line of record `k`.
    fn line(self, k: usize) -> Ends
        requires { k < length self.bytes.now / 8 }
        ensures { result ≡ record_line (coordinates self.entry.bytes.now) k }
    {
        let at = 4 * k;
        Ends {
            x0: coordinate_at(self.bytes, at),
            y0: coordinate_at(self.bytes, at + 1),
            x1: coordinate_at(self.bytes, at + 2),
            y1: coordinate_at(self.bytes, at + 3),
        }
    }

    // Marks the pixels of the line of record `k` in a grid. It is a call of its own: in line, the loop over the records leaves the
    // walk too few registers.
    #[inline(never)]
    fn mark_line(self, k: usize, grid: Grid, raster: &mut [u8]) -> Counts
        requires { (k < length self.bytes.now / 8) × (length raster.old ≡ raster_bytes grid.window) }
        ensures value { result ≡ draw_counts (line_figure (record_line (coordinates self.entry.bytes.now) k)) grid.window raster.old }
        ensures raster_after { raster.new ≡ draw_raster (line_figure (record_line (coordinates self.entry.bytes.now) k)) grid.window raster.old }
    {
        LineBy::new(self.line(k), SingleStep).mark(grid, raster)
    }
}

impl Draw for Records<'_> {
    ghost figure = { λ it. records_figure (coordinates it.bytes.now) };

    ghost drawable = { λ it. records_drawable (coordinates it.bytes.now) };

    // An accepted file has no record that is refused.
    #[tactic(auto, unfolding(refusal::specs::Refusal::first_met))]
    fn check(self) -> Result<(), Refusal> {
        Ok(())
    }

    fn mark(self, grid: Grid, raster: &mut [u8]) -> Counts {
        let records = self.bytes.len() / 8;
        let mut count: u64 = 0;
        let mut fresh: u64 = 0;
        for k in 0..records {
            let counts = self.mark_line(k, grid, raster);
            count += counts.count;
            fresh += counts.fresh;
        }
        Counts { count, fresh }
    }
}
