// The frame: its coordinates, its pixels and its two directions.
#![tactic(auto)]

mod axis;
mod coordinate;
mod pixel;

pub use axis::Axis;
pub use coordinate::Coordinate;
pub use pixel::Pixel;
