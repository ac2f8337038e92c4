// Integral linear interpolation: the short distance at any step of a line, and the first step of any run, each by one
// division and in 32 bits.
#![tactic(auto)]

mod slope;

pub use slope::{ShortStep, Slope};
