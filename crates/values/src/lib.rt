// What every family is made of: values and how they are sent, the numbers that tell operations and returns, sizes, and
// why something is refused.
#![tactic(auto)]

pub mod coded;
pub mod held;
pub mod refusal;
pub mod sizes;
pub mod value;
