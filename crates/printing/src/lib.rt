// Printing into bytes that are lent: bytes, numbers, and the lines of a step, of a reply and of a refused text.
#![tactic(auto)]

pub mod printed;
pub mod put;
