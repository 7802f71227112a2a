// The outsider's messages: what he copies or builds, and the message that a forged step adds.
#![tactic(auto)]

pub mod added;
mod copied;
