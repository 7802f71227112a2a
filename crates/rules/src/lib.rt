// specs/ has the rules of documents 01 and 02 as definitions, and proofs/ what follows from them. In code there are only the arguments of which
// the definitions speak, and the sizes of steps and lists.
#![tactic(auto)]

pub mod codes;
pub mod steps;
