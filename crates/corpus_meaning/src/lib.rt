// Specifications only: there is no code in this crate.
#![tactic(auto)]
