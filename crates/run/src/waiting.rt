// SPDX-License-Identifier: MIT OR Apache-2.0
// The waiting point: plain numbers in the run, one of these cases everywhere else.
ghost use Rattle.std.specs.Prelude.{◌≡◌};
ghost use Rattle.run.specs.Waiting.{stage_number, is_last, stage_after, at_number, index_number, stage_at, mark_at, stage_read, waits_at};

use crate::{Count, Mark};

// Which of its four questions an RK4 step has open.
#[derive(Clone, Copy, PartialEq, Eq)]
pub enum Stage {
    First,
    Second,
    Third,
    Fourth,
}

#[derive(Clone, Copy)]
pub enum Waiting {
    // The acceleration at the epoch.
    Epoch,
    // An RK4 step on from point i, 4 to 7.
    Forward(u8, Stage),
    // An RK4 step back from point i, 4 to 1.
    Backward(u8, Stage),
    // Point i, any but the epoch, for the first time.
    Survey(u8),
    // Point i in a startup pass.
    Pass(u8),
    // A step's end, after so many corrector passes.
    Step(u8),
    // The RK4 step over what is left.
    Tail(Stage),
    // The acceleration at tf, for the last sample.
    TailSample,
    // No question is open.
    Ended,
    // A number that no waiting point has: such a run is made up. A case and no Option round the others: `has_counts` and `answered_at` say of it what
    // they say of each.
    Unknown,
}

impl From<Stage> for u8 {
    ghost from_gives = { λ s n. n ≡ stage_number s };

    fn from(s: Stage) -> u8 {
        match s {
            Stage::First => 0,
            Stage::Second => 1,
            Stage::Third => 2,
            Stage::Fourth => 3,
        }
    }
}

// A number that no stage has.
#[derive(Clone, Copy)]
pub struct UnknownStage(pub u8);

impl TryFrom<u8> for Stage {
    type Error = UnknownStage;

    ghost try_from_gives = { λ n r. r ≡ stage_read n };

    #[tactic(auto, unfolding(crate::specs::Waiting::stage_read, crate::specs::Waiting::stage_from))]
    fn try_from(n: u8) -> Result<Self, UnknownStage> {
        match n {
            0 => Ok(Stage::First),
            1 => Ok(Stage::Second),
            2 => Ok(Stage::Third),
            3 => Ok(Stage::Fourth),
            _ => Err(UnknownStage(n)),
        }
    }
}

impl Stage {
    // Whether its answer ends the RK4 step.
    pub fn is_last(self) -> bool
        ensures { result ≡ is_last self }
    {
        self == Stage::Fourth
    }

    pub fn after(self) -> Stage
        ensures { result ≡ stage_after self }
    {
        match self {
            Stage::First => Stage::Second,
            Stage::Second => Stage::Third,
            Stage::Third | Stage::Fourth => Stage::Fourth,
        }
    }
}

fn at_number(w: Waiting) -> u8
    ensures { result ≡ at_number w }
{
    match w {
        Waiting::Ended => 0,
        Waiting::Epoch => 1,
        Waiting::Forward(_, _) => 2,
        Waiting::Backward(_, _) => 3,
        Waiting::Survey(_) => 4,
        Waiting::Pass(_) => 5,
        Waiting::Step(_) => 6,
        Waiting::Tail(_) => 7,
        Waiting::TailSample => 8,
        Waiting::Unknown => 9,
    }
}

fn index_number(w: Waiting) -> u8
    ensures { result ≡ index_number w }
{
    match w {
        Waiting::Forward(i, _) | Waiting::Backward(i, _) => i,
        Waiting::Survey(i) | Waiting::Pass(i) | Waiting::Step(i) => i,
        _ => 0,
    }
}

fn stage_at(w: Waiting) -> u8
    ensures { result ≡ stage_at w }
{
    match w {
        Waiting::Forward(_, s) | Waiting::Backward(_, s) | Waiting::Tail(s) => u8::from(s),
        _ => 0,
    }
}

// A waiting point in numbers, with the counts of its question. Three numbers of one value, each by itself: a `From` would make but one of them.
pub fn mark_at(w: Waiting, count: Count) -> Mark
    ensures { result ≡ mark_at w count }
{
    Mark {
        at: at_number(w),
        index: index_number(w),
        stage: stage_at(w),
        count,
    }
}

// The waiting point that a mark's numbers mean.
#[tactic(auto, unfolding(crate::specs::Waiting::waits_at, crate::specs::Waiting::waiting_at, crate::specs::Waiting::stage_read))]
pub fn waits_at(m: Mark) -> Waiting
    ensures { result ≡ waits_at m }
{
    let Ok(stage) = Stage::try_from(m.stage) else {
        return Waiting::Unknown;
    };
    match m.at {
        0 => Waiting::Ended,
        1 => Waiting::Epoch,
        2 => Waiting::Forward(m.index, stage),
        3 => Waiting::Backward(m.index, stage),
        4 => Waiting::Survey(m.index),
        5 => Waiting::Pass(m.index),
        6 => Waiting::Step(m.index),
        7 => Waiting::Tail(stage),
        8 => Waiting::TailSample,
        _ => Waiting::Unknown,
    }
}
