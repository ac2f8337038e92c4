// Lines that are each drawn in a window of their own, by bands and both ways, on rasters of 8 bytes.
use line::ends::Ends;
use raster::window::Window;

// A raster: 4 rows of 2 bytes, or 8 rows of 1.
pub type Raster = [u8; 8];

// A line in a window.
#[derive(Clone, Copy)]
pub struct Placed {
    pub ends: Ends,
    pub window: Window,
    // Whether the ends, the window and a raster of 8 bytes are within the limits.
    pub within: bool,
}

// Line K, which is line H in a window.
pub const K: Placed = Placed {
    ends: Ends {
        x0: 0,
        y0: 0,
        x1: 11,
        y1: 3,
    },
    window: Window {
        left: 0,
        top: 0,
        width: 12,
        height: 4,
    },
    within: true,
};

// Line G. Half of its pixels are outside the window.
pub const G: Placed = Placed {
    ends: Ends {
        x0: 0,
        y0: 0,
        x1: 3,
        y1: 7,
    },
    window: Window {
        left: -3,
        top: -1,
        width: 5,
        height: 8,
    },
    within: true,
};

// A line from right to left, with a half at every second step.
pub const LEFTWARDS: Placed = Placed {
    ends: Ends {
        x0: 4,
        y0: -2,
        x1: 0,
        y1: 0,
    },
    window: Window {
        left: 0,
        top: -2,
        width: 5,
        height: 8,
    },
    within: true,
};

// Starts: a clear one, and one for K and one for G with marks on the line and beside it, and in the padding.
pub const CLEAR: Raster = [0; 8];

pub const MARKED_K: Raster = [64, 47, 164, 5, 1, 130, 0, 24];

pub const MARKED_G: Raster = [7, 16, 0, 12, 0, 31, 0, 1];
