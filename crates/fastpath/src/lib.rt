// SPDX-License-Identifier: MIT OR Apache-2.0
// The way most answers go: at a step's end, with one more question there to follow. By the parts of a run that this takes, so that a run
// which is lent is neither copied out nor put back whole; a record of the parts would be such a copy again (docs/BENCH.md has what copies cost).
// It goes on to the same step as the plain way, by other code: the two are proved equal.
// `look_at` says whether an answer goes this way; then `ask_again` or `make_step` gives what changes. The theorems of `proofs/SameAnswer.antt` say that this is what `gauss_jackson::answer` does.
#![tactic(auto)]

ghost use Rattle.std.specs.Prelude.{◌≡◌};
ghost use Rattle.fastpath.specs.Looking.{looked_at};
ghost use Rattle.fastpath.specs.Moving.{asked_at, asked_again, track_by, made_step, kept_step};

use gauss_jackson::Question;
use plan::{Plan, limits};
use run::{Mark, Track, Trial, samples, sound};
use triple::{State, Triple, nine};

mod judging;

use judging::Reached;

// What an answer leads to: the open step is tried once more, or it is made and the next one is open, or neither, and the answer goes the
// plain way. `mark` is where the run waits then, `state` where the step ends by this answer, `steps` the steps made; of an answer at no open
// step, or under another number, they are what stood before.
#[derive(Clone, Copy)]
pub enum Look {
    Away {
        mark: Mark,
        state: State,
        steps: u64,
    },
    Again {
        mark: Mark,
        state: State,
    },
    On {
        mark: Mark,
        state: State,
        steps: u64,
    },
}

// What changes in a run where the open step is tried once more, and its question.
#[derive(Clone, Copy)]
pub struct Tried {
    pub mark: Mark,
    pub trial: Trial,
    pub question: Question,
}

// What changes where a step is made and the next one is open, its question, and how many samples are stored.
#[derive(Clone, Copy)]
pub struct Stepped {
    pub mark: Mark,
    pub a: [Triple; 9],
    pub track: Track,
    pub trial: Trial,
    pub question: Question,
    pub stored: u64,
}

// What the answer `a` under `number` leads to, with room for so many numbers of samples from sample `from` on.
pub fn look_at(
    mark: Mark,
    plan: Plan,
    track: Track,
    trial: Trial,
    passes: u64,
    number: u16,
    a: Triple,
    from: u64,
    room: usize,
) -> Look
    ensures { result ≡ looked_at mark plan track trial passes number a from room }
{
    if !sound::is_open_step(mark, plan, passes, track.steps) {
        return judging::look_away(mark, track, trial);
    }
    if mark.count.number != number {
        return judging::look_away(mark, track, trial);
    }
    let n = mark.index;
    let count = mark.count.next();
    match judging::reach(n, plan, track.sums, trial, a) {
        Reached::Made(state) => judging::look_on(plan, count, track, state, from, room),
        Reached::Open(state) => judging::look_again(n, count, state),
    }
}

#[tactic(auto, unfolding(crate::specs::Moving::asked_at))]
fn ask_at(mark: Mark, t: f64, x: State) -> Question
    ensures { result ≡ asked_at mark t x }
{
    Question::under(mark.count.number, x.at(t))
}

// The open step once more: where the run waits, what it tries, and the question.
#[tactic(auto, unfolding(crate::specs::Moving::asked_again))]
pub fn ask_again(mark: Mark, state: State, plan: Plan, track: Track, trial: Trial) -> Tried
    ensures { result ≡ asked_again mark state plan track trial }
{
    let question = ask_at(mark, track.t + plan.h, state);
    Tried {
        mark,
        trial: Trial { state, ..trial },
        question,
    }
}

// The newest point, one step on.
#[tactic(auto, unfolding(crate::specs::Moving::track_by))]
fn track_by(state: State, steps: u64, plan: Plan, track: Track, a: Triple) -> Track
    ensures { result ≡ track_by state steps plan track a }
{
    Track {
        t: track.t + plan.h,
        steps,
        state,
        sums: track.sums.on(a),
    }
}

// The step is made, with the acceleration `a`, and the next one is open at its prediction. Its sample is stored last: a store into the
// buffer pins every copy that is made before it.
#[tactic(auto, unfolding(crate::specs::Moving::made_step, crate::specs::Moving::kept_step, crate::specs::Moving::stored_by))]
pub fn make_step(
    mark: Mark,
    reached: State,
    steps: u64,
    plan: Plan,
    track: Track,
    old: [Triple; 9],
    a: Triple,
    from: u64,
    out: &mut [f64],
) -> Stepped
    ensures { (result ≡ made_step mark reached steps plan track old a)
        × (out.new ≡ kept_step reached steps plan track old a from out.old) }
{
    let next = track_by(reached, steps, plan, track, a);
    let window = nine::slid(old, a);
    let state = sums::predicted(plan.h, next.sums, window);
    let fixed = sums::fixed_of(window);
    let question = ask_at(mark, next.t + plan.h, state);
    let trial = Trial { state, fixed };
    let wanted = limits::wants_samples(plan.settings);
    let stored = u64::from(wanted);
    samples::keep_sample(
        wanted,
        from,
        next.steps,
        samples::step_sample(next, window),
        out,
    );
    Stepped {
        mark,
        a: window,
        track: next,
        trial,
        question,
        stored,
    }
}
