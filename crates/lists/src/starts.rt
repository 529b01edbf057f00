// Objects, told by their family and what they hold.
ghost use Rattle.std.specs.Prelude.{◌≡◌, IfSome};
ghost use Rattle.families.specs.Family.{family_of, family_number};

use crate::fields::{from, number_at};
use families::codes::{start_form, start_from};
use families::family::Family;
use families::{Kind, Object};
use values::coded::{Coded, StartForm};
use values::sizes::{FULL, ROOM};
use values::value::zigzag;

// The number by which the families' tables tell a family; without a family one that is none's.
fn number_of(family: Option<Family>) -> u32
    ensures { IfSome family (λ f. result ≡ family_number f) }
{
    match family {
        Some(family) => u32::from(family),
        None => u32::MAX,
    }
}

// What an object of that family is; without a family it is taken for a stack.
pub fn kind_of(family: Option<Family>) -> Kind
    ensures { IfSome family (λ f. family_of result ≡ f) }
{
    let coded = Coded::bare(number_of(family));
    let object = start_from(coded, [0; ROOM]);
    object.kind
}

// Whether an object that starts so can hold so many values.
fn takes(form: StartForm, count: u32) -> bool {
    match form {
        StartForm::Unknown => false,
        StartForm::Number => count == 1,
        StartForm::Flagged => count <= 1,
        StartForm::Values => count <= FULL,
    }
}

// n v1 … vn to the end of the line: the object of that family which holds just these values. Where there is none, an
// object that comes near it, with the largest count and the least value for those that can't be read: wall runs what can't be
// read all the same, so that this is no Option.
pub fn object_of(family: Option<Family>, held: &[i64]) -> Result<Object, Object> {
    let number = number_of(family);
    let count = number_at(held, 0).unwrap_or(u32::MAX);
    let values = from(held, 1);
    let mut items = [0; ROOM];
    for (item, &value) in items.iter_mut().zip(values) {
        *item = i32::try_from(value).unwrap_or(i32::MIN);
    }
    let coded = Coded {
        number,
        count,
        word: zigzag(number_at(values, 0).unwrap_or(i32::MIN)),
    };
    let object = start_from(coded, items);
    let are_values = values.iter().all(|&value| i32::try_from(value).is_ok());
    if takes(start_form(number), count) && values.len() == count as usize && are_values {
        Ok(object)
    } else {
        Err(object)
    }
}
