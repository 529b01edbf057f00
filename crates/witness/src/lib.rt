// A checker of proposed orders, on its own: it replays the words of an order on the bare object and shares
// no code with the search.
#![tactic(auto)]

pub mod check;
mod replay;
pub mod words;
