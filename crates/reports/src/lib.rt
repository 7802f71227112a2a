// The report on a place of a record.
#![tactic(auto)]

pub mod report;
