// A pixel.

// A pixel of the frame by its column and row. Columns grow rightwards, rows downwards.
#[derive(Clone, Copy, PartialEq, Eq)]
pub struct Pixel {
    pub column: i32,
    pub row: i32,
}
