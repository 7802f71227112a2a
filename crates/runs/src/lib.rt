// A run of a list of steps from an empty record.
#![tactic(auto)]

pub mod run;
