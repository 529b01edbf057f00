// The verdict on a history, of one of the judges, compared with what the list says of it: under a budget
// that just covers the search, one that falls short of it by one attempt, and the largest.
use crate::codes::is_said;
use crate::model::Model;
use families::family::Family;
use families::no_ret;
use judging::answer::{Answer, NOBODY, Placed, Verdict};
use lists::fields::{from, number_at};
use testers::Testers;
use values::sizes::OPERATIONS;

// A place of an order takes this many numbers: T OP V RET RN RV.
const PLACE: usize = 6;

// What a judge has to answer of an object of that family: the verdict, the attempts, and the places of an order.
#[derive(Clone, Copy)]
struct Due<'a> {
    family: Family,
    verdict: Verdict,
    attempts: u64,
    places: &'a [i64],
}

// A K, and for an order n and n times T OP V RET RN RV to the end of the line. K is what the Rust answered: None on a
// valid history, an order, or None on an invalid one.
fn due_at(family: Family, fields: &[i64]) -> Option<Due> {
    let (verdict, places): (Verdict, &[i64]) = match from(fields, 1) {
        [0] => (Verdict::NoOrder, &[]),
        [1, order @ ..] => (Verdict::Order, places_at(order)?),
        [2] => (Verdict::Invalid, &[]),
        _ => return None,
    };
    Some(Due {
        family,
        verdict,
        // What is no number is more than any judge answers, and differs.
        attempts: number_at(fields, 0).unwrap_or(u64::MAX),
        places,
    })
}

// n, and n times T OP V RET RN RV.
fn places_at(order: &[i64]) -> Option<&[i64]> {
    let length: usize = number_at(order, 0)?;
    let places = from(order, 1);
    if length <= OPERATIONS && places.len() == PLACE * length {
        Some(places)
    } else {
        None
    }
}

// T OP V RET RN RV
fn is_placed(placed: Placed, family: Family, fields: &[i64]) -> bool {
    number_at(fields, 0) == Some(placed.thread) && is_said(placed.ret, family, from(fields, 3))
}

// What stands behind an order.
fn is_blank(placed: Placed) -> bool {
    let nobody = Placed {
        thread: NOBODY,
        ret: no_ret(),
    };
    placed == nobody
}

impl Due<'_> {
    // What is due within a budget that falls short: so many attempts, and no verdict.
    fn short(self, attempts: u64) -> Self {
        Due {
            family: self.family,
            verdict: Verdict::Undecided,
            attempts,
            places: &[],
        }
    }

    // Whether the answer is the one that is due, with just these places, and nobody behind them.
    fn is(self, answer: Answer) -> bool {
        let length = self.places.len() / PLACE;
        let mut places = answer.order.iter().zip(self.places.chunks(PLACE));
        answer.verdict == self.verdict
            && answer.attempts == self.attempts
            && answer.length == length
            && places.all(|(&placed, fields)| is_placed(placed, self.family, fields))
            && answer
                .order
                .iter()
                .skip(length)
                .all(|&placed| is_blank(placed))
    }
}

// M A K, and for an order n and n times T OP V RET RN RV: the model, and whether its judge answers so.
pub fn compared(testers: &Testers, family: Family, fields: &[i64]) -> Option<(Model, bool)> {
    let model: Model = number_at(fields, 0)?;
    let due = due_at(family, from(fields, 1))?;
    let agrees = due.is(model.judge(testers, due.attempts))
        && due.is(model.judge(testers, u64::MAX))
        && match due.attempts.checked_sub(1) {
            Some(fewer) => due.short(fewer).is(model.judge(testers, fewer)),
            None => true,
        };
    Some((model, agrees))
}
