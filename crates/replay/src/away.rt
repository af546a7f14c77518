// SPDX-License-Identifier: MIT OR Apache-2.0
// Runs that are put away and taken up on their way: the words `away N` that end a case, and what they ask for.
use crate::words::Words;
use gauss_jackson::{Answered, Outcome, Run};

// The bytes of a stored run.
const FORM: usize = 2048;

// What follows a case's other words: nothing, or `away` and a count above zero. That count, if there is one; none at all where
// something else follows.
pub fn read(words: &mut Words<'_>) -> Option<Option<u64>> {
    let Some(word) = words.next() else {
        return Some(None);
    };
    if word != b"away".as_slice() {
        return None;
    }
    let every = words.count()?;
    if every == 0 || words.next().is_some() {
        return None;
    }
    Some(Some(every))
}

// Stored, and loaded from those bytes; a refusal of either stands for the outcome, so that the transcript shows it.
fn put_away_and_take_up(run: Run) -> Answered {
    let mut form = [0u8; FORM];
    match stored::store(run, &mut form) {
        Ok(()) => stored::load(run, &form),
        Err(e) => Answered {
            run,
            outcome: Outcome::Refused(e),
            stored: 0,
        },
    }
}

// What stands before the n-th answer, counted from 1: before every so many-th the run is put away, and the run and the question come
// back. A run that asks nothing is let be.
pub fn before_answer(every: Option<u64>, n: u64, now: Answered) -> Answered {
    let is_due = every.is_some_and(|every| n.is_multiple_of(every));
    match now.outcome {
        Outcome::Ask(_) if is_due => put_away_and_take_up(now.run),
        _ => now,
    }
}
