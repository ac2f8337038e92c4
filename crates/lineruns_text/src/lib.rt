// What `lineruns` reads and prints, as functions of bytes.
#![tactic(auto)]

pub mod answer;
pub mod print;
pub mod program;
pub mod read;
pub mod text;
