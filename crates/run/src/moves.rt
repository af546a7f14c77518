// SPDX-License-Identifier: MIT OR Apache-2.0
// What an answer makes of the mathematics: from a body to the next, each by value.
ghost use Rattle.std.specs.Prelude.{◌≡◌};
ghost use Rattle.run.specs.Moves.{fresh_body, with_slope, kept, end_of, moved, surveyed, pass_begun, renewed, launched, predicted, tried, end_of_tail};

use crate::waiting::Stage;
use crate::{Body, Slopes, Track, Trial, questions};
use plan::Plan;
use startup::{Widest, passes};
use sums::{Fixed, Sums};
use triple::{Point, State, Triple, nine};

// Before the first answer.
#[tactic(auto, unfolding(crate::specs::Moves::fresh_body))]
pub fn fresh_body(plan: Plan, r0: Triple, v0: Triple) -> Body
    ensures { result ≡ fresh_body plan r0 v0 }
{
    let zero = Triple::zero();
    let state = State { r: zero, v: zero };
    Body {
        plan,
        places: startup::first_places(r0, v0),
        a: nine::zeros(),
        slopes: Slopes {
            l1: zero,
            l2: zero,
            l3: zero,
        },
        widest: Widest {
            delta: 0.0,
            mag: 0.0,
        },
        startup_iters: 0,
        track: Track {
            t: 0.0,
            steps: 0,
            state,
            sums: Sums {
                s: zero,
                big_s: zero,
            },
        },
        trial: Trial {
            state,
            fixed: Fixed { fa: zero, fb: zero },
        },
    }
}

#[tactic(auto, unfolding(crate::specs::Moves::with_slope))]
fn with_slope(s: Stage, l: Slopes, a: Triple) -> Slopes
    ensures { result ≡ with_slope s l a }
{
    match s {
        Stage::First => Slopes { l1: a, ..l },
        Stage::Second => Slopes { l2: a, ..l },
        Stage::Third => Slopes { l3: a, ..l },
        Stage::Fourth => l,
    }
}

// An RK4 step has one more acceleration. In place, not by `..b`: most of a startup's answers come here, and that copies each part by itself.
#[tactic(auto, unfolding(crate::specs::Moves::kept))]
pub fn keep(s: Stage, mut b: Body, a: Triple) -> Body
    ensures { result ≡ kept s b a }
{
    b.slopes = with_slope(s, b.slopes, a);
    b
}

// Where the open RK4 step from p over h ends, with its fourth acceleration.
#[tactic(auto, unfolding(crate::specs::Moves::end_of))]
pub fn end_of(p: Point, h: f64, l: Slopes, a: Triple) -> State
    ensures { result ≡ end_of p h l a }
{
    rk4::end_of_step(p, h, l.l1, l.l2, l.l3, a)
}

// The RK4 step over h from point i to point j has ended.
pub fn move_to(i: u8, j: u8, h: f64, b: Body, a: Triple) -> Body
    ensures { result ≡ moved i j h b a }
{
    let end = end_of(questions::grid_point(b, i), h, b.slopes, a);
    Body {
        places: startup::place(j, end, b.places),
        ..b
    }
}

// Point i, the epoch too, has its first acceleration.
#[tactic(auto, unfolding(crate::specs::Moves::surveyed))]
pub fn survey(i: u8, b: Body, a: Triple) -> Body
    ensures { result ≡ surveyed i b a }
{
    Body {
        a: nine::replaced(b.a, usize::from(i), a),
        ..b
    }
}

// A pass begins: all points corrected, no change met yet.
#[tactic(auto, unfolding(crate::specs::Moves::pass_begun))]
pub fn begin_pass(b: Body) -> Body
    ensures { result ≡ pass_begun b }
{
    Body {
        places: passes::corrected(b.plan.h, b.places, b.a),
        widest: passes::calm_at(b.a),
        ..b
    }
}

// Point i has its acceleration afresh.
#[tactic(auto, unfolding(crate::specs::Moves::renewed))]
pub fn renew(i: u8, b: Body, a: Triple) -> Body
    ensures { result ≡ renewed i b a }
{
    let before = nine::element(b.a, usize::from(i));
    Body {
        a: nine::replaced(b.a, usize::from(i), a),
        widest: passes::widen(b.widest, before, a),
        ..b
    }
}

// The startup is done: four steps, at point 8.
#[tactic(auto, unfolding(crate::specs::Moves::launched, crate::specs::Tracks::start_track))]
pub fn launch(b: Body) -> Body
    ensures { result ≡ launched b }
{
    let track = Track {
        t: startup::time_at(b.plan.t0, b.plan.h, 8),
        steps: 4,
        state: startup::state_at(b.places, 8),
        sums: passes::last_sums(b.plan.h, b.places, b.a),
    };
    Body { track, ..b }
}

// A step is open at its prediction.
#[tactic(auto, unfolding(crate::specs::Moves::predicted))]
pub fn predict(b: Body) -> Body
    ensures { result ≡ predicted b }
{
    let trial = Trial {
        state: sums::predicted(b.plan.h, b.track.sums, b.a),
        fixed: sums::fixed_of(b.a),
    };
    Body { trial, ..b }
}

// The open step, or the tail, ends at x so far.
#[tactic(auto, unfolding(crate::specs::Moves::tried))]
pub fn try_state(b: Body, x: State) -> Body
    ensures { result ≡ tried b x }
{
    let trial = Trial {
        state: x,
        ..b.trial
    };
    Body { trial, ..b }
}

// Where the tail ends, with its fourth acceleration.
#[tactic(auto, unfolding(crate::specs::Moves::end_of_tail))]
pub fn end_of_tail(b: Body, a: Triple) -> State
    ensures { result ≡ end_of_tail b a }
{
    let rem = conditions::left_at(b.plan, b.track.t);
    end_of(questions::tail_from(b.track), rem, b.slopes, a)
}
