// The second drawer: each coordinate by one division a step, from the definition, every pixel tested against the window and
// the bands. Coordinates are counted from the lowest. It shares no code with the drawers that it is compared with.
ghost use Rattle.std.specs.Prelude.{◌<◌, ◌≤◌};

use drawing::counts::Counts;

// A pixel by its column and row.
#[derive(Clone, Copy)]
pub struct Place {
    pub x: u32,
    pub y: u32,
}

// The window: its first column and row, and its size; and the bands that are drawn, each by its first row and how many.
#[derive(Clone, Copy)]
pub struct Frame<'a> {
    pub first: Place,
    pub width: u32,
    pub height: u32,
    pub bands: &'a [[u32; 2]],
}

// Whether a band has rows and ends within the height.
fn accepted(first: u32, rows: u32, height: u32) -> bool {
    rows != 0 && u64::from(first) + u64::from(rows) <= u64::from(height)
}

// How many bands are not accepted; at most as many as there are, so it never wraps.
pub fn refused(bands: &[[u32; 2]], height: u32) -> usize {
    let mut refused: usize = 0;
    for &[first, rows] in bands {
        if !accepted(first, rows, height) {
            refused = refused.wrapping_add(1);
        }
    }
    refused
}

// Whether an accepted band takes the row in.
fn in_bands(row: u32, frame: Frame) -> bool {
    for &[first, rows] in frame.bands {
        if accepted(first, rows, frame.height) && first <= row && row - first < rows {
            return true;
        }
    }
    false
}

// The whole number nearest to the coordinate at step `i` of `l` on the exact way from `a` to `b`, a half to the larger. The
// exact coordinate is a + i × (b − a) / l, which is (a × (l − i) + b × i) / l. The way along the long axis is exact.
fn nearest(a: u32, b: u32, l: u32, i: u32) -> u32
    requires { (a < 32768) × (b < 32768) × (l < 32768) × (i ≤ l) }
{
    if l == 0 {
        return a;
    }
    (2 * (a * (l - i) + b * i) + l) / (2 * l)
}

// Marks a pixel and answers whether it was unmarked; none where it is not in the window or no accepted band takes its row in.
fn mark(pixel: Place, frame: Frame, raster: &mut [u8]) -> Option<bool> {
    let Place { x, y } = frame.first;
    if pixel.x < x || pixel.y < y {
        return None;
    }
    let column = pixel.x - x;
    let row = pixel.y - y;
    if frame.width <= column || frame.height <= row || !in_bands(row, frame) {
        return None;
    }
    let bytes = frame.width.div_ceil(8) as usize;
    let byte = raster.get_mut(row as usize * bytes + column as usize / 8)?;
    let bit = 128u8 >> (column % 8);
    let unmarked = *byte & bit == 0;
    *byte |= bit;
    Some(unmarked)
}

// Marks the line's pixels in the bands' rows of the window, and answers how many they are and how many were unmarked.
pub fn draw(from: Place, to: Place, frame: Frame, raster: &mut [u8]) -> Counts
    requires { (from.x < 32768) × (from.y < 32768) × (to.x < 32768) × (to.y < 32768) }
{
    let l = from.x.abs_diff(to.x).max(from.y.abs_diff(to.y));
    let mut count: u64 = 0;
    let mut fresh: u64 = 0;
    for i in 0..=l {
        let pixel = Place {
            x: nearest(from.x, to.x, l, i),
            y: nearest(from.y, to.y, l, i),
        };
        if let Some(unmarked) = mark(pixel, frame, raster) {
            count += 1;
            if unmarked {
                fresh += 1;
            }
        }
    }
    Counts { count, fresh }
}
