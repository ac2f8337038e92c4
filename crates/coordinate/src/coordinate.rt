// A coordinate of the frame: its limits, the range test, and its unsigned form, in which code computes with it.
ghost use Rattle.std.specs.Prelude.{◌≡◌, false, ◌-◌, ◌<◌};
ghost use Rattle.coordinate.specs.Coordinate.{out_of_range, biased, unbiased};

// A column or a row of the frame.
#[derive(Clone, Copy)]
pub struct Coordinate {
    pub value: i32,
}

impl Coordinate {
    pub const LOWEST: i32 = -16384;

    pub const HIGHEST: i32 = 16383;
    // How many coordinates there are.
    pub const COUNT: u32 = 32768;

    // Whether `z` is below the lowest coordinate or above the highest.
    pub fn out_of_range(z: i32) -> bool
        ensures { result ≡ out_of_range z }
    {
        z < Self::LOWEST || Self::HIGHEST < z
    }

    // How far the coordinate `z` is above the lowest one.
    pub fn biased(z: i32) -> u32
        requires { out_of_range z ≡ false }
        ensures { result ≡ biased z }
    {
        (z - Self::LOWEST) as u32
    }

    // The coordinate that is `n` above the lowest one.
    pub fn unbiased(n: u32) -> i32
        requires { n < 32768 }
        ensures { result ≡ unbiased n }
    {
        n as i32 + Self::LOWEST
    }
}
