// The refusals and their numbers.
ghost use Rattle.std.specs.Prelude.{◌≡◌};
ghost use Rattle.refusal.specs.Refusal.{number, place};

// The refusals, in the order of their numbers. An operation answers `Ok` with its values, or `Err` with one of these.
#[derive(Clone, Copy, PartialEq, Eq)]
pub enum Refusal {
    // 1: a coordinate of an end is out of range.
    Ends,
    // 2: the window's width or height is out of range.
    WindowSize,
    // 3: the window's left or top is out of the coordinate range, or its last column or row is above the highest one.
    WindowPlace,
    // 4: the raster's length is not the height times the bytes of a row.
    RasterLength,
    // 5: the list is too short for the line's runs.
    ListLength,
    // 6: a band has no rows or ends below the window, or a row number is not below the height.
    Rows,
    // 7: three times the count of runs is more than the list's length.
    RunCount,
    // 8: a run has no pixel, or one out of the coordinate range; the place of the first such run, from 0.
    Run(u32),
    // 9: the input is not one line of four numbers.
    Input,
    // 10: the file's length is out of range, or it lacks the letters; writing, it would be too long.
    File,
    // 11: the file's table, its position and its lengths do not fit together.
    Table,
    // 12: a coordinate of a record is out of range.
    Record,
    // 13: a float of a touching pen's point is infinite or not a number.
    NotFinite,
    // 14: a rounded coordinate of a touching pen's point is out of range.
    PenRange,
}

impl Refusal {
    // The refusal's number.
    pub fn number(self) -> u32
        ensures { result ≡ number self }
    {
        match self {
            Refusal::Ends => 1,
            Refusal::WindowSize => 2,
            Refusal::WindowPlace => 3,
            Refusal::RasterLength => 4,
            Refusal::ListLength => 5,
            Refusal::Rows => 6,
            Refusal::RunCount => 7,
            Refusal::Run(_) => 8,
            Refusal::Input => 9,
            Refusal::File => 10,
            Refusal::Table => 11,
            Refusal::Record => 12,
            Refusal::NotFinite => 13,
            Refusal::PenRange => 14,
        }
    }

    // The place of the bad run, 0 for any other refusal.
    pub fn place(self) -> u32
        ensures { result ≡ place self }
    {
        match self {
            Refusal::Run(place) => place,
            _ => 0,
        }
    }
}
