// A direction of the frame.

// A direction of the frame: along its columns' numbers, x, or along its rows', y.
#[derive(Clone, Copy, PartialEq, Eq)]
pub enum Axis {
    X,
    Y,
}
