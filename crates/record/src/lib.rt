// The record: the flat table of 16-bit numbers, 48 to a message, in which messages stand.
#![tactic(auto)]

pub mod table;
