// A text and its lines: the bytes that part it, the line at a position, and the reader that hands one line over after the other.
#![tactic(auto)]

pub mod bytes;
mod lines;
pub mod reader;
