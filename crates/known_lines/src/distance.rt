// Coordinates counted from the lowest one, and how far apart two of them are.
ghost use Rattle.std.specs.Prelude.{◌<◌};

use coordinate::Coordinate;

// How far a coordinate is above the lowest one; 0 for a number that is no coordinate.
pub fn from_lowest(z: i32) -> u32
    ensures { result < 32768 }
{
    if Coordinate::out_of_range(z) {
        return 0;
    }
    Coordinate::biased(z)
}

// How far apart two coordinates are.
pub fn gap(a: i32, b: i32) -> u32
    ensures { result < 32768 }
{
    from_lowest(a).abs_diff(from_lowest(b))
}
