// Specifications only: there is no code in this crate, but a trait without functions.
#![tactic(auto)]

pub mod as_rows;
