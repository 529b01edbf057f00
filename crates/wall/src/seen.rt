// What every call answers of a tester, whatever its record is.
use crate::records::Asked;
use crate::verdicts::name_of;
use arrayvec::ArrayVec;
use judging::answer::Answer;
use judging::judge::judge;
use recording_meaning::as_rows::AsRows;
use std::io;
use stepping::recorded::number;
use values::coded::Coded;
use values::sizes::OPERATIONS;
use witness::check::check;
use witness::words::WORDS;

// The thread that the events are of.
const THREAD: u32 = 6;

// Room for the words of an order.
const MOST: usize = OPERATIONS * WORDS;

// The words of the order that was found.
fn words_of(answer: Answer) -> Option<ArrayVec<u32, MOST>> {
    let mut words = ArrayVec::new();
    for placed in answer.order.iter().take(answer.length) {
        let coded = Coded::from(placed.ret);
        let place = [
            u32::from(placed.thread),
            coded.number,
            coded.count,
            coded.word,
        ];
        words.try_extend_from_slice(&place).ok()?;
    }
    Some(words)
}

// What is answered of a tester: the numbers of the three calls that record, how many operations it has, the verdict and its
// attempts, and whether the checker takes, of this tester, the order that the judge finds of the other.
pub fn tell_seen<T: AsRows>(rt: &impl Print, tester: T, beside: T, asked: Asked) -> io::Result<()> {
    let recorded = [
        tester.on_invoke(THREAD, asked.op).recorded,
        tester.on_return(THREAD, asked.ret).recorded,
        tester.on_invret(THREAD, asked.op, asked.ret).recorded,
    ];
    let [invoke, back, both] = recorded.map(number);
    print!(rt; "{invoke} {back} {both}, len {}, ", tester.len())?;
    let answer = judge(tester, u64::MAX);
    let taken = match words_of(judge(beside, u64::MAX)) {
        Some(words) if check(tester, words.as_slice()) => "yes",
        _ => "no",
    };
    print!(rt;
        "{} in {}, checker {taken}",
        name_of(answer.verdict),
        answer.attempts
    )
}
