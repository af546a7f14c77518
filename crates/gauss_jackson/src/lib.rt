// SPDX-License-Identifier: MIT OR Apache-2.0
// The integration turned inside out: `start` gives a run with its first question, and each accepted `answer` gives the next
// question, or the finished state, or a refusal. The run is plain data, goes in by value and comes back by value.
// Every function that a caller sees is total: document 01 names the answer to anything at all.
#![tactic(auto)]

ghost use Rattle.std.specs.Prelude.{◌≡◌};
ghost use Rattle.plan.specs.Plan.{default_settings};
ghost use Rattle.run.specs.Samples.{tens, numbers_of};
ghost use Rattle.gauss_jackson.specs.Answers.{question_under, ending, started, answered, open_question};
ghost use Rattle.gauss_jackson.specs.declared.Outcome.TheVariants.{Refused};

pub use plan::Settings;
use refusals::Refusal;
pub use run::Run;
use run::samples::Room;
use run::{sound, waiting};
use triple::{Point, Triple};

mod advance;
mod outcomes;
mod taking;

// A force's question: answer it with the acceleration there, under its number.
#[repr(C)]
#[derive(Clone, Copy)]
pub struct Question {
    pub number: u16,
    pub t: f64,
    pub r: Triple,
    pub v: Triple,
}

impl Question {
    // What is asked at a point, under a number.
    pub fn under(number: u16, p: Point) -> Question
        ensures { result ≡ question_under number p }
    {
        Question {
            number,
            t: p.t,
            r: p.r,
            v: p.v,
        }
    }
}

// The finished state. `evals` is the count of accepted answers.
#[repr(C)]
#[derive(Clone, Copy)]
pub struct Solution {
    pub t: f64,
    pub r: Triple,
    pub v: Triple,
    pub evals: u64,
    pub steps: u64,
    pub startup_iters: u64,
}

#[derive(Clone, Copy)]
pub enum Outcome {
    Ask(Question),
    Done(Solution),
    Refused(Refusal),
}

// What a call gives: the run to go on with, the outcome, and how many samples it stored: 0, 1 or 5.
#[derive(Clone, Copy)]
pub struct Answered {
    pub run: Run,
    pub outcome: Outcome,
    pub stored: u64,
}

// The module's values: one-minute steps, no samples.
pub fn default_settings() -> Settings
    ensures { result ≡ default_settings }
{
    Settings {
        h: 60.0,
        corrector_tol: 1.0e-13,
        startup_tol: 1.0e-13,
        max_corrector_iters: 2,
        max_startup_iters: 12,
        max_steps: 1_000_000,
        samples: 0,
    }
}

// A refusal that leaves no run, or ends it: the run that is ended.
pub fn refuse(refusal: Refusal) -> Answered
    ensures { result ≡ ending (Refused refusal) }
{
    outcomes::end(Outcome::Refused(refusal))
}

// A start: a run with its first question, or a refusal with a run that is ended. What it is given stays five arguments, here and in the crates
// above: C and the rules' theorems have them apart, and a record would be made only to be taken apart.
#[tactic(auto, unfolding(crate::specs::Answers::started, crate::specs::Answers::started_by))]
pub fn start(settings: Settings, t0: f64, tf: f64, r0: Triple, v0: Triple) -> Answered
    ensures { result ≡ started settings t0 tf r0 v0 }
{
    let plan = plan::plan_of(settings, t0, tf);
    match plan::verdict_on(plan) {
        Ok(()) => outcomes::begin(plan, r0, v0),
        Err(refusal) => refuse(refusal),
    }
}

// The answer to question `number`: the acceleration `a`. Samples that fall due go into `out`, whose first ten numbers are those of sample
// `from`: sample n takes ten from place 10(n - from) on.
pub fn answer(run: Run, number: u16, a: Triple, from: u64, out: &mut [f64]) -> Answered
    ensures { (result ≡ (answered run number a (tens from out.old)).got) × (out.new ≡ numbers_of (answered run number a (tens from out.old)).out) }
{
    if !sound::is_sound(run) {
        return outcomes::refuse(run, Refusal::NoQuestion);
    }
    let mark = run.mark;
    if mark.count.number != number {
        return outcomes::refuse(run, Refusal::NotThatQuestion);
    }
    let mut room = Room { from, numbers: out };
    taking::take(
        waiting::waits_at(mark),
        mark.count.next(),
        run.body,
        a,
        &mut room,
    )
}

// The open question of a run, told again; or 7 where none is open.
#[tactic(auto, unfolding(crate::specs::Answers::open_question))]
pub fn open_question(run: Run) -> Outcome
    ensures { result ≡ open_question run }
{
    if !sound::is_sound(run) {
        return Outcome::Refused(Refusal::NoQuestion);
    }
    outcomes::question_of(waiting::waits_at(run.mark), run.mark.count, run.body)
}
