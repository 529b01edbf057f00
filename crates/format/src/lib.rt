// The fields of a corpus file, each read from its bytes: numbers, the header, and events. What a number means in a family
// stands in `families::family` and `families::codes`; nothing here names a family.
#![tactic(auto)]

mod cursor;
pub mod events;
pub mod header;
mod payload;
mod told;
