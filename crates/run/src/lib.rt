// SPDX-License-Identifier: MIT OR Apache-2.0
// The run: its records, and the mathematics of each waiting point by parts. Nothing here decides what an answer leads to; that is
// `gauss_jackson`, which alone is meant for callers.
#![tactic(auto)]

ghost use Rattle.std.specs.Prelude.{◌≡◌};
ghost use Rattle.run.specs.Waiting.{wrapped_next};

use plan::Plan;
use startup::{Places, Widest};
use sums::{Fixed, Sums};
use triple::{State, Triple};

pub mod moves;
pub mod questions;
pub mod samples;
pub mod sound;
pub mod waiting;

// Where the run waits, and the mathematics.
#[repr(C)]
#[derive(Clone, Copy)]
pub struct Run {
    pub mark: Mark,
    pub body: Body,
}

// The waiting point in numbers, since C lends runs (`waiting` has their meaning), and the counts of the open question.
#[repr(C)]
#[derive(Clone, Copy)]
pub struct Mark {
    pub at: u8,
    pub index: u8,
    pub stage: u8,
    pub count: Count,
}

// The open question's number, and the answers accepted before it.
#[repr(C)]
#[derive(Clone, Copy)]
pub struct Count {
    pub number: u16,
    pub evals: u64,
}

impl Count {
    // The counts of the next question; its number wraps to 0 after 65,535.
    pub fn next(self) -> Count
        ensures { result ≡ wrapped_next self }
    {
        Count {
            number: self.number.wrapping_add(1),
            evals: self.evals.wrapping_add(1),
        }
    }
}

// All that the questions to come depend on.
#[repr(C)]
#[derive(Clone, Copy)]
pub struct Body {
    pub plan: Plan,
    pub places: Places,
    pub a: [Triple; 9],
    pub slopes: Slopes,
    pub widest: Widest,
    pub startup_iters: u64,
    pub track: Track,
    pub trial: Trial,
}

// The accelerations got so far in the open RK4 step.
#[repr(C)]
#[derive(Clone, Copy)]
pub struct Slopes {
    pub l1: Triple,
    pub l2: Triple,
    pub l3: Triple,
}

// The newest point after the startup: its time, its state, the running sums there, and the steps made.
#[repr(C)]
#[derive(Clone, Copy)]
pub struct Track {
    pub t: f64,
    pub steps: u64,
    pub state: State,
    pub sums: Sums,
}

// The open step: the state that was last worked out for its end, and what its passes share.
#[repr(C)]
#[derive(Clone, Copy)]
pub struct Trial {
    pub state: State,
    pub fixed: Fixed,
}
