// Every drawer on one line, each on a clear raster of its own, compared with the second drawer.
use crate::distance::from_lowest;
use crate::second::{self, Frame, Place};
use crate::small::LIST;
use drawing::band::Band;
use drawing::counts::Counts;
use line::ends::Ends;
use line_draw::draw::{draw_band, draw_double, draw_single};
use line_list::list::list_runs;
use raster::window::Window;
use refusal::Refusal;
use runs::paint::paint_runs;

// The most bytes that a raster has here: a row of one pixel more than a window may have.
const ROOM: usize = 1025;

// The length of a window's raster.
pub fn bytes(window: Window) -> usize {
    window.height as usize * window.width.div_ceil(8) as usize
}

// What `work` makes of a clear raster of `length` bytes, none where that is more than ROOM.
pub fn on_clear<T, F: FnOnce(&mut [u8]) -> T>(length: usize, work: F) -> Option<T>
    requires { F.IsAlwaysCallable work }
{
    let mut room = [0u8; ROOM];
    room.get_mut(..length).map(work)
}

// Lists the line's runs and paints them; the counts, or the first refusal of the two.
fn list_and_paint(ends: Ends, window: Window, raster: &mut [u8]) -> Result<Counts, Refusal> {
    let mut list = [0i32; LIST];
    let listing = list_runs(ends, &mut list)?;
    paint_runs(listing.axis, listing.runs, &list, window, raster)
}

// Draws the line band by band, each row of the window a band; the sums of the counts, or the first refusal. The sums are at
// most the line's pixels, so they never wrap.
fn draw_each_row(ends: Ends, window: Window, raster: &mut [u8]) -> Result<Counts, Refusal> {
    let mut count: u64 = 0;
    let mut fresh: u64 = 0;
    for first in 0..window.height {
        let counts = draw_band(ends, window, Band { first, rows: 1 }, raster)?;
        count = count.wrapping_add(counts.count);
        fresh = fresh.wrapping_add(counts.fresh);
    }
    Ok(Counts { count, fresh })
}

// A line in a window, and what every drawer has to make of it on a clear raster: so many pixels, every one fresh, or this
// refusal; and the expected raster.
#[derive(Clone, Copy)]
struct Case<'a> {
    ends: Ends,
    window: Window,
    count: Result<u64, Refusal>,
    expected: &'a [u8],
}

impl Case<'_> {
    // Whether a drawer makes this of the clear raster that is lent; and whether it then draws the same line again with no pixel fresh
    // and leaves the raster as it is.
    fn holds_on<F: Fn(Ends, Window, &mut [u8]) -> Result<Counts, Refusal>>(
        self,
        draw: F,
        raster: &mut [u8],
    ) -> bool
        requires { F.IsAlwaysCallable draw }
    {
        let first = self.count.map(|count| Counts {
            count,
            fresh: count,
        });
        let again = self.count.map(|count| Counts { count, fresh: 0 });
        if draw(self.ends, self.window, raster) != first || &*raster != self.expected {
            return false;
        }
        draw(self.ends, self.window, raster) == again && &*raster == self.expected
    }

    // The same on a clear raster, which has room for the expected one.
    fn holds_of<F: Fn(Ends, Window, &mut [u8]) -> Result<Counts, Refusal>>(self, draw: F) -> bool
        requires { F.IsAlwaysCallable draw }
    {
        on_clear(self.expected.len(), |raster| self.holds_on(draw, raster)).unwrap_or(false)
    }

    // Whether it holds of every drawer.
    fn holds_of_all(self) -> bool {
        self.holds_of(draw_single)
            && self.holds_of(draw_double)
            && self.holds_of(list_and_paint)
            && self.holds_of(draw_each_row)
    }
}

// Draws the line by the second drawer in the rows of these bands, and answers its counts there.
pub fn draw_second(ends: Ends, window: Window, bands: &[[u32; 2]], raster: &mut [u8]) -> Counts {
    let place = |x, y| Place {
        x: from_lowest(x),
        y: from_lowest(y),
    };
    let frame = Frame {
        first: place(window.left, window.top),
        width: window.width,
        height: window.height,
        bands,
    };
    second::draw(
        place(ends.x0, ends.y0),
        place(ends.x1, ends.y1),
        frame,
        raster,
    )
}

// Whether every drawer has the second drawer's raster and count, each on a clear raster and once more on what it left, or,
// where a refusal is given, every drawer refuses by it and leaves its raster clear. False for a raster of more than ROOM bytes.
pub fn alike(ends: Ends, window: Window, refusal: Option<Refusal>) -> bool {
    on_clear(bytes(window), |raster| {
        let count = match refusal {
            Some(refusal) => Err(refusal),
            None => Ok(draw_second(ends, window, &[[0, window.height]], raster).count),
        };
        let case = Case {
            ends,
            window,
            count,
            expected: raster,
        };
        case.holds_of_all()
    })
    .unwrap_or(false)
}
