// The coordinates in the bytes of some records.
ghost use Rattle.std.specs.Prelude.{◌≡◌, ◌/◌, ◌<◌, pos, length, get_or};
ghost use Rattle.reel.specs.Reel.{coordinates_out, coordinates};

use coordinate::Coordinate;

// The k-th coordinate.
pub fn coordinate_at(bytes: &[u8], k: usize) -> i32
    requires { k < length bytes.now / 2 }
    ensures { result ≡ get_or (coordinates bytes.now) k (pos 0) }
{
    i32::from(i16::from_le_bytes([bytes[2 * k], bytes[2 * k + 1]]))
}

// Whether one of them is out of range.
pub fn coordinates_out(bytes: &[u8]) -> bool
    ensures { result ≡ coordinates_out (coordinates bytes.now) }
{
    (0..bytes.len() / 2).any(|k| Coordinate::out_of_range(coordinate_at(bytes, k)))
}
