// Step text: a text read into a table of steps.
#![tactic(auto)]

pub mod read;
pub mod told;
