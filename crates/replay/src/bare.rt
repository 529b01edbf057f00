// The list of bare objects: the three calls on one, made and compared with what the list says of them.
use crate::came::{Answered, Came, Compare};
use crate::codes::{is_said, step_at};
use families::Object;
use families::family::Family;
use lists::codes::op_at;
use lists::fields::{from, number_at};
use lists::starts::object_of;
use semantics::Stepped;
use values::refusal::Refusal;

fn says(said: Result<bool, Refusal>, answer: Option<u8>) -> bool {
    match said {
        Ok(yes) => answer == Some(u8::from(yes)),
        Err(_) => false,
    }
}

// An object as the calls on it leave it.
#[derive(Clone, Copy)]
struct Started {
    family: Family,
    object: Object,
}

impl Started {
    // F n v1 … vn
    fn at(fields: &[i64]) -> Option<Self> {
        let family = number_at(fields, 0)?;
        let object = object_of(Some(family), from(fields, 1)).ok()?;
        Some(Started { family, object })
    }

    // n v1 … vn to the end of the line: whether the object holds these values and no others, and its storage is zero
    // elsewhere.
    fn holds(&self, held: &[i64]) -> bool {
        match object_of(Some(self.family), held) {
            Ok(said) => self.object == said,
            Err(_) => false,
        }
    }

    // OP V RET RN RV n v1 … vn
    fn invoke(&mut self, fields: &[i64]) -> Option<bool> {
        let op = op_at(Some(self.family), fields)?;
        let invoked = semantics::invoke(self.object, op);
        self.object = invoked.object;
        let said = from(fields, 2);
        let agrees = match invoked.answer {
            Ok(ret) => is_said(ret, self.family, said),
            Err(_) => false,
        };
        Some(agrees && self.holds(from(said, 3)))
    }

    // Y n v1 … vn
    fn end(&mut self, stepped: Stepped, fields: &[i64]) -> bool {
        self.object = stepped.object;
        says(stepped.said, number_at(fields, 0)) && self.holds(from(fields, 1))
    }

    // OP V RET RN RV Y n v1 … vn
    fn step(&mut self, fields: &[i64]) -> Option<bool> {
        let (op, ret) = step_at(self.family, fields)?;
        let stepped = semantics::is_valid_step(self.object, op, ret);
        Some(self.end(stepped, from(fields, 5)))
    }

    // k, k times OP V RET RN RV, Y n v1 … vn
    fn walk(&mut self, fields: &[i64]) -> Option<bool> {
        let steps: u32 = number_at(fields, 0)?;
        let mut rest = from(fields, 1);
        let mut walked = semantics::is_valid_history(self.object);
        for _ in 0..steps {
            let (op, ret) = step_at(self.family, rest)?;
            walked = walked.then(op, ret);
            rest = from(rest, 5);
        }
        Some(self.end(walked, rest))
    }
}

#[derive(Clone, Copy, Default)]
pub struct Objects {
    started: Option<Started>,
}

impl Compare for Objects {
    // A new object, or a call on the one that there is. After a line that can't be read there is none, so that nothing
    // can be asked up to the next start.
    fn compare(&mut self, line: &[i64]) -> Option<Came> {
        let started = self.started.take();
        if let [0, fields @ ..] = line {
            self.started = Some(Started::at(fields)?);
            return Some(Came::Started);
        }
        let mut object = started?;
        let (call, agrees) = match line {
            [1, fields @ ..] => (0, object.invoke(fields)?),
            [2, fields @ ..] => (1, object.step(fields)?),
            [3, fields @ ..] => (2, object.walk(fields)?),
            _ => return None,
        };
        self.started = Some(object);
        Some(Came::Answered(Answered {
            group: u32::from(object.family) as usize,
            call,
            agrees,
        }))
    }
}
