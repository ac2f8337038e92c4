// Writing the numbers of a file, one behind the other.
ghost use Rattle.std.specs.Prelude.{◌≡◌, false, ℕ, List, ◌*◌, length};
ghost use mathlib.Core.List.{flat_map};
ghost use Rattle.std.specs.List.{All};
ghost use Rattle.coordinate.specs.Coordinate.{out_of_range};
ghost use Rattle.reel.specs.Numbers.{bytes_of, complement};

// A number that a file holds in N bytes, the low byte first.
pub trait Stored<const N: usize>: Copy {
    // It can be held.
    ghost fits: { Self → Type 0 };

    ghost bytes: { Self → List ℕ };

    fn to_bytes(self) -> [u8; N]
        requires { fits self }
        ensures { result ≡ bytes self };
}

// A coordinate in two bytes.
impl Stored<2> for i32 {
    ghost fits = { λ z. out_of_range z ≡ false };

    ghost bytes = { λ z. bytes_of 2 (complement z) };

    fn to_bytes(self) -> [u8; 2] {
        (self as i16).to_le_bytes()
    }
}

// A number of the table in four bytes.
impl Stored<4> for u32 {
    ghost fits = { λ x. Unit {0} };

    ghost bytes = { bytes_of 4 };

    fn to_bytes(self) -> [u8; 4] {
        self.to_le_bytes()
    }
}

// Fills a buffer with the bytes of the items, one behind the other.
pub fn write_items<const N: usize, T: Stored<N>>(items: &[T], output: &mut [u8])
    requires fits { All T.fits items.now }
    requires room { length output.old ≡ N * length items.now }
    ensures { output.new ≡ flat_map T.bytes items.now }
{
    for (k, item) in items.iter().enumerate() {
        output[N * k..N * k + N].copy_from_slice(&item.to_bytes());
    }
}
