// What the tablet reports.

// Where the pen is, in pixels with a fraction.
#[derive(Clone, Copy)]
pub struct Point {
    pub column: f32,
    pub row: f32,
}

// One report of the tablet.
#[derive(Clone, Copy)]
pub enum Report {
    Touching(Point),
    Hovering(Point),
    Lifted,
}
