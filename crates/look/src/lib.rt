// One look through a record for the four messages of a payment, on which the report on a place rests.
#![tactic(auto)]

pub mod look;
mod payment;
