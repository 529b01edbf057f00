// A proposed order, handed to the checker and compared with what the list says of it.
use crate::model::Model;
use arrayvec::ArrayVec;
use lists::fields::{all_of, from, number_at};
use testers::Testers;

// Room for the words of an order.
const MOST: usize = 1024;

// M Y k w1 … wk to the end of the line: the model, and whether its checker takes the order of these words as Y says.
pub fn compared(testers: &Testers, fields: &[i64]) -> Option<(Model, bool)> {
    let model: Model = number_at(fields, 0)?;
    let is_legal = match number_at(fields, 1)? {
        0u8 => false,
        1 => true,
        _ => return None,
    };
    let words: ArrayVec<u32, MOST> = all_of(from(fields, 3))?;
    if number_at(fields, 2) != Some(words.len()) {
        return None;
    }
    let is_taken = model.check(testers, words.as_slice());
    Some((model, is_taken == is_legal))
}
