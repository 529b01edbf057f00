// The two models, which have these numbers in a list, and what judge and checker of each say.
use judging::answer::Answer;
use judging::judge::judge;
use lists::fields::Unknown;
use testers::Testers;
use witness::check::check;

#[derive(Clone, Copy, PartialEq, Eq)]
pub enum Model {
    Sequential = 0,
    Linearizable = 1,
}

impl TryFrom<i64> for Model {
    type Error = Unknown;

    fn try_from(number: i64) -> Result<Self, Unknown> {
        match number {
            0 => Ok(Model::Sequential),
            1 => Ok(Model::Linearizable),
            _ => Err(Unknown),
        }
    }
}

impl Model {
    pub fn judge(self, testers: &Testers, budget: u64) -> Answer {
        match self {
            Model::Sequential => judge(testers.sequential, budget),
            Model::Linearizable => judge(testers.linearizability, budget),
        }
    }

    // Whether the checker takes the words of a proposed order.
    pub fn check(self, testers: &Testers, order: &[u32]) -> bool {
        match self {
            Model::Sequential => check(testers.sequential, order),
            Model::Linearizable => check(testers.linearizability, order),
        }
    }
}
