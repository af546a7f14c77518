// SPDX-License-Identifier: MIT OR Apache-2.0
// What a call can give: a question, the finished state or a refusal, and the run to go on with.
ghost use Rattle.std.specs.Prelude.{◌≡◌, if◌then◌else◌};
ghost use Rattle.run.specs.Moves.{fresh_body};
ghost use Rattle.gauss_jackson.specs.Answers.{no_plan, ended_run, ending, with_stored, question_of, asking, solution_of, refusing};

use crate::{Answered, Outcome, Question, Solution};
use plan::{Plan, Settings};
use refusals::Refusal;
use run::waiting::Waiting;
use run::{Body, Count, Run, moves, questions, waiting};
use triple::{State, Triple};

#[tactic(auto, unfolding(crate::specs::Answers::no_plan))]
fn no_plan() -> Plan
    ensures { result ≡ no_plan }
{
    let settings = Settings {
        h: 0.0,
        corrector_tol: 0.0,
        startup_tol: 0.0,
        max_corrector_iters: 0,
        max_startup_iters: 0,
        max_steps: 0,
        samples: 0,
    };
    Plan {
        settings,
        t0: 0.0,
        tf: 0.0,
        h: 0.0,
    }
}

// The run that has ended: always the same one.
#[tactic(auto, unfolding(crate::specs::Answers::ended_run))]
fn ended_run() -> Run
    ensures { result ≡ ended_run }
{
    let zero = Triple::zero();
    let count = Count {
        number: 0,
        evals: 0,
    };
    Run {
        mark: waiting::mark_at(Waiting::Ended, count),
        body: moves::fresh_body(no_plan(), zero, zero),
    }
}

#[tactic(auto, unfolding(crate::specs::Answers::ending))]
pub fn end(outcome: Outcome) -> Answered
    ensures { result ≡ ending outcome }
{
    Answered {
        run: ended_run(),
        outcome,
        stored: 0,
    }
}

// After 7 and 8 all is unchanged.
#[tactic(auto, unfolding(crate::specs::Answers::refusing))]
pub fn refuse(run: Run, refusal: Refusal) -> Answered
    ensures { result ≡ refusing run refusal }
{
    Answered {
        run,
        outcome: Outcome::Refused(refusal),
        stored: 0,
    }
}

// The answer x, where samples are wanted after m of them were stored.
#[tactic(auto, unfolding(crate::specs::Answers::with_stored))]
pub fn tell_stored(wanted: bool, m: u64, x: Answered) -> Answered
    ensures { result ≡ (if wanted then with_stored m x else x) }
{
    if wanted {
        Answered { stored: m, ..x }
    } else {
        x
    }
}

#[tactic(auto, unfolding(crate::specs::Answers::question_of))]
pub fn question_of(w: Waiting, count: Count, body: Body) -> Outcome
    ensures { result ≡ question_of w count body }
{
    Outcome::Ask(Question::under(count.number, questions::question_at(w, body)))
}

// The run waits at w.
#[tactic(auto, unfolding(crate::specs::Answers::asking))]
pub fn ask(w: Waiting, count: Count, body: Body) -> Answered
    ensures { result ≡ asking w count body }
{
    let mark = waiting::mark_at(w, count);
    Answered {
        run: Run { mark, body },
        outcome: question_of(w, count, body),
        stored: 0,
    }
}

// The run with its first question.
pub fn begin(plan: Plan, r0: Triple, v0: Triple) -> Answered
    ensures { result ≡ asking Waiting.Epoch (record { number = 0; evals = 0 }) (fresh_body plan r0 v0) }
{
    let count = Count {
        number: 0,
        evals: 0,
    };
    ask(Waiting::Epoch, count, moves::fresh_body(plan, r0, v0))
}

#[tactic(auto, unfolding(crate::specs::Answers::solution_of))]
pub fn solution_of(t: f64, x: State, count: Count, steps: u64, b: Body) -> Outcome
    ensures { result ≡ solution_of t x count steps b }
{
    Outcome::Done(Solution {
        t,
        r: x.r,
        v: x.v,
        evals: count.evals,
        steps,
        startup_iters: b.startup_iters,
    })
}
