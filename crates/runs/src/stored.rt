// A run as a list stores it, and what makes it bad.
ghost use Rattle.std.specs.Prelude.{◌≡◌};
ghost use Rattle.runs.specs.Painting.{natural};
ghost use Rattle.runs.specs.Parts.{stored_at, bad_run};

use coordinate::Coordinate;

// The three numbers of a stored run.
#[derive(Clone, Copy)]
pub struct Stored {
    pub across: i32,
    pub lowest: i32,
    pub pixels: i32,
}

impl From<[i32; 3]> for Stored {
    ghost from_gives = { λ numbers run. run ≡ stored_at numbers 0 };

    fn from([across, lowest, pixels]: [i32; 3]) -> Stored {
        Stored {
            across,
            lowest,
            pixels,
        }
    }
}

// A number that is not below 0, and 0 for one that is.
pub fn natural_of(z: i32) -> u32
    ensures { result ≡ natural z }
{
    z.max(0).unsigned_abs()
}

// Whether the run has no pixel, or one out of the coordinate range.
pub fn run_bad(run: Stored) -> bool
    ensures { result ≡ bad_run run }
{
    let n = natural_of(run.pixels);
    if n < 1 {
        return true;
    }
    if Coordinate::out_of_range(run.across) {
        return true;
    }
    if Coordinate::out_of_range(run.lowest) {
        return true;
    }
    Coordinate::COUNT < Coordinate::biased(run.lowest) + n
}
