// Floats rounded to whole numbers, a half to the larger. Each step is exact, so that the float's exact worth decides.
ghost use Rattle.std.specs.Prelude.{◌≡◌, true, false};
ghost use Rattle.std.specs.Float.Ieee.Scale.{finite};
ghost use Rattle.coordinate.specs.Coordinate.{out_of_range};
ghost use Rattle.pen.specs.Worth.{nearest_to};

// Whether the whole number nearest to `x` is out of the coordinate range.
pub fn rounds_out(x: f32) -> bool
    requires { finite x ≡ true }
    ensures { result ≡ out_of_range (nearest_to x) }
{
    x < -16384.5 || 16383.5 <= x
}

// The whole number nearest to `x`. The fraction has the sign of `x`, so at −1/2 the whole part is the larger neighbour.
pub fn rounded(x: f32) -> i32
    requires is_finite { finite x ≡ true }
    requires in_range { out_of_range (nearest_to x) ≡ false }
    ensures { result ≡ nearest_to x }
{
    let fraction = x % 1.0;
    let whole = (x - fraction) as i32;
    if fraction < -0.5 {
        whole - 1
    } else if fraction < 0.5 {
        whole
    } else {
        whole + 1
    }
}
