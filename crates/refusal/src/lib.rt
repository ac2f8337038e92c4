// Why an operation turns its arguments away: document 01's list of refusals, which document 02 goes on with.
#![tactic(auto)]

mod refusal;

pub use refusal::Refusal;
