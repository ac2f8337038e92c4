// The way of a line's columns, or of its rows, from its first end to its second.
ghost use Rattle.std.specs.Prelude.{◌≡◌, ◌<◌};

// Where the way starts, counted from the lowest coordinate, and whether the coordinate grows on it.
#[derive(Clone, Copy)]
pub struct Way {
    pub start: u32,
    pub grows: bool,
    pub ghost start_in: { start < 32768 },
}

impl Way {
    ghost use Rattle.line.specs.Trace.{away};

    // The coordinate `by` away from the start.
    pub fn at(self, by: u32) -> u32
        requires { by < 32768 }
        ensures { result ≡ away self.grows self.start by }
    {
        if self.grows {
            return self.start + by;
        }
        self.start.saturating_sub(by)
    }
}
