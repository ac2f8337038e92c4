// What every drawing answers.

// The counts of a drawing: its pixels in the window, and how many of them are fresh, that is were unmarked before.
#[derive(Clone, Copy, PartialEq, Eq)]
pub struct Counts {
    pub count: u64,
    pub fresh: u64,
}
