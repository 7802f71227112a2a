// Messages built: a part written at its position, and each kind of message as its 48 numbers.
#![tactic(auto)]

pub mod build;
mod put;
