// No code: of each public operation, that any two results which its promise allows are equal.
#![tactic(auto)]
