// The honest steps: when each is allowed, and the message that it adds.
#![tactic(auto)]

pub mod added;
pub mod allowed;
mod claims;
