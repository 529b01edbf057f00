// Lists of numbers that tell objects and events, a line each, read for the programs that run them. bench/README.md
// describes their lines, and families has the table of numbers.
#![tactic(auto)]

pub mod codes;
pub mod events;
pub mod fields;
pub mod input;
pub mod lines;
pub mod starts;
