// Events, told by what happens, the thread, and an operation or a return or both.
ghost use Rattle.std.specs.Prelude.{◌≡◌};
ghost use Rattle.lists.specs.Feeding.{fed_to};

use crate::codes::{op_at, ret_at};
use crate::fields::{from, number_at};
use families::family::Family;
use families::{Op, Ret};
use testers::{Answers, Testers};
use values::sizes::THREADS;

// What happens on a thread.
#[derive(Clone, Copy)]
pub enum Event {
    Invoke { thread: u32, op: Op },
    Return { thread: u32, ret: Ret },
    // Both at once.
    Both { thread: u32, op: Op, ret: Ret },
}

impl Event {
    // What both testers answer to the event, and they as it leaves them.
    #[tactic(auto, unfolding(crate::specs::Feeding::fed_to))]
    pub fn feed(self, testers: Testers) -> Answers
        ensures { result ≡ fed_to testers self }
    {
        match self {
            Event::Invoke { thread, op } => testers.on_invoke(thread, op),
            Event::Return { thread, ret } => testers.on_return(thread, ret),
            Event::Both { thread, op, ret } => testers.on_invret(thread, op, ret),
        }
    }
}

// 1 T OP V or 2 T RET RN RV or 3 T OP V RET RN RV, of an object of that family.
pub fn event_at(family: Option<Family>, line: &[i64]) -> Option<Event> {
    let thread: u32 = number_at(line, 1)?;
    if thread >= THREADS as u32 {
        return None;
    }
    let fields = from(line, 2);
    match line {
        [1, ..] => {
            let op = op_at(family, fields)?;
            Some(Event::Invoke { thread, op })
        }
        [2, ..] => {
            let ret = ret_at(family, fields)?;
            Some(Event::Return { thread, ret })
        }
        [3, ..] => {
            let op = op_at(family, fields)?;
            let ret = ret_at(family, from(fields, 2))?;
            Some(Event::Both { thread, op, ret })
        }
        _ => None,
    }
}
