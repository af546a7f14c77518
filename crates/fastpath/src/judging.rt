// SPDX-License-Identifier: MIT OR Apache-2.0
// What an answer at a step's end leads to: where the step ends by it, whether it is made there, and whether a further one follows.
ghost use Rattle.std.specs.Prelude.{◌≡◌, ◌<◌};
ghost use Rattle.run.specs.Limits.{ample};
ghost use Rattle.fastpath.specs.Looking.{reach, is_followed, looked_away, looked_again, looked_on};

use crate::Look;
use plan::{Plan, limits};
use run::waiting::Waiting;
use run::{Count, Mark, Track, Trial, samples, waiting};
use sums::Sums;
use triple::{State, Triple};

// Where the open step ends by the newest answer: it is made there, or stays open.
#[derive(Clone, Copy)]
pub enum Reached {
    Made(State),
    Open(State),
}

#[tactic(auto, unfolding(crate::specs::Looking::reach, crate::specs::Looking::is_made, crate::specs::Looking::reached))]
pub fn reach(n: u8, plan: Plan, sums: Sums, trial: Trial, a: Triple) -> Reached
    ensures { result ≡ reach n plan sums trial a }
{
    let before = trial.state;
    if u64::from(n) >= plan.settings.max_corrector_iters {
        return Reached::Made(before);
    }
    let after = sums::corrected(plan.h, sums, trial.fixed, a);
    if conditions::is_at_rest(plan.settings.corrector_tol, before, after) {
        return Reached::Made(after);
    }
    Reached::Open(after)
}

// Whether a further step follows at t, after n of them, and the sample that is due, if any, has its place among so many numbers.
#[tactic(auto, unfolding(crate::specs::Looking::is_followed))]
fn is_followed(plan: Plan, t: f64, n: u64, from: u64, room: usize) -> bool
    ensures { result ≡ is_followed plan t n from room }
{
    samples::has_place(limits::wants_samples(plan.settings), from, n, 1, room)
        && conditions::is_due(plan, t)
        && n < plan.settings.max_steps
        && !conditions::is_tail(plan, t)
}

// Neither, since no step is open or another question was answered: what stands, stands.
#[tactic(auto, unfolding(crate::specs::Looking::looked_away))]
pub fn look_away(mark: Mark, track: Track, trial: Trial) -> Look
    ensures { result ≡ looked_away mark track trial }
{
    Look::Away {
        mark,
        state: trial.state,
        steps: track.steps,
    }
}

// The open step is tried once more, after n passes.
#[tactic(auto, unfolding(crate::specs::Looking::looked_again))]
pub fn look_again(n: u8, count: Count, state: State) -> Look
    requires { n < 255 }
    ensures { result ≡ looked_again n count state }
{
    Look::Again {
        mark: waiting::mark_at(Waiting::Step(n + 1), count),
        state,
    }
}

// The open step is made, and the next one is open, if one follows; else the answer goes the plain way, and where the step ends is told all
// the same. The counts have room, as in gauss_jackson's `advance`.
#[tactic(auto, unfolding(crate::specs::Looking::looked_on))]
pub fn look_on(plan: Plan, count: Count, track: Track, state: State, from: u64, room: usize) -> Look
    requires { track.steps < ample }
    ensures { result ≡ looked_on plan count track state from room }
{
    let steps = track.steps + 1;
    let mark = waiting::mark_at(Waiting::Step(0), count);
    if !is_followed(plan, track.t + plan.h, steps, from, room) {
        return Look::Away { mark, state, steps };
    }
    Look::On { mark, state, steps }
}
