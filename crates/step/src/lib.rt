// One step against a record: demand 2 of the approvals office.
#![tactic(auto)]

pub mod judge;
