// The marking pen. The way of the data: a report of the tablet (report), its floats rounded to whole numbers (rounding), the
// pixel that the pen touches (touched).
#![tactic(auto)]

pub mod report;
mod rounding;
pub mod touched;
