// The results of a text that is played: the lines of its steps and of its house replies, or one line for a refused text.
#![tactic(auto)]

pub mod play;
