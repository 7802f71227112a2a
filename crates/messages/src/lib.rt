// The layer of messages: the parties, the kinds and the parts of a message, and where they stand.
// Positions have their names here, and the crates above use the names.
#![tactic(auto)]

pub mod kind;
pub mod layout;
pub mod parts;
pub mod signed;
