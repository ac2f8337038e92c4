// A line's slope, and its short distance at any step.
ghost use Rattle.std.specs.Prelude.{◌≡◌, ◌+◌, ◌≤◌};
ghost use Rattle.interpolation.specs.Interpolation.{m, decision, Rounding};
ghost use Rattle.interpolation.specs.Runs.{run_first};

// How a line slopes: L and S, and what its short distances are rounded by.
#[derive(Clone, Copy)]
pub struct Slope {
    pub long: u32,
    pub short: u32,
    pub half: u32,
    pub ghost long_most: { long ≤ 32767 },
    pub ghost short_most: { short ≤ long },
    pub ghost rounding: { Rounding half long },
}

// The short distance at a step, and the step's decision number: what the division leaves.
#[derive(Clone, Copy)]
pub struct ShortStep {
    pub distance: u32,
    pub decision: u32,
}

impl Slope {
    // The short distance of step `i` and its decision number.
    pub fn short_at(self, i: u32) -> ShortStep
        requires { i ≤ self.long }
        ensures { (result.distance ≡ m self.half self.long self.short i) × (result.decision ≡ decision self.half self.long self.short i) }
    {
        if self.long == 0 {
            return ShortStep {
                distance: 0,
                decision: 0,
            };
        }
        let sum = 2 * i * self.short + self.half;
        ShortStep {
            distance: sum / (2 * self.long),
            decision: sum % (2 * self.long),
        }
    }

    // The first step with a short distance of `k` or more, and the step after the last where there is none.
    pub fn first_step(self, k: u32) -> u32
        ensures { result ≡ run_first self.half self.long self.short k }
    {
        if k == 0 {
            return 0;
        }
        if self.short < k {
            return self.long + 1;
        }
        (2 * k * self.long + 2 * self.short - 1 - self.half) / (2 * self.short)
    }
}
