// The arguments of a step: what each of its numbers is, by its code, what it gives by them, what a message yields, and refusal 2.
#![tactic(auto)]

pub mod codes;
pub mod given;
pub mod items;
