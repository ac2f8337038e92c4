// What is read of a raster, which stays as it is: the view of a row, and the search for the first marked pixel. Both are operations
// for every input.
#![tactic(auto)]

pub mod row;
pub mod search;
