// SPDX-License-Identifier: MIT OR Apache-2.0
// What each waiting point asks.
ghost use Rattle.std.specs.Prelude.{◌≡◌};
ghost use Rattle.run.specs.Tracks.{tail_from};
ghost use Rattle.run.specs.Questions.{stage_question, grid_point, epoch_point, end_point, last_point, no_point, question_at};

use crate::waiting::{Stage, Waiting};
use crate::{Body, Slopes, Track};
use triple::{Point, Triple};

// The question that stage s of an RK4 step from p over h has open.
#[tactic(auto, unfolding(crate::specs::Questions::stage_question))]
fn stage_question(s: Stage, p: Point, h: f64, l: Slopes) -> Point
    ensures { result ≡ stage_question s p h l }
{
    match s {
        Stage::First => p,
        Stage::Second => rk4::second_question(p, h, l.l1),
        Stage::Third => rk4::third_question(p, h, l.l1, l.l2),
        Stage::Fourth => rk4::fourth_question(p, h, l.l2, l.l3),
    }
}

// Point i of the startup, with its time.
#[tactic(auto, unfolding(crate::specs::Questions::grid_point))]
pub fn grid_point(b: Body, i: u8) -> Point
    ensures { result ≡ grid_point b i }
{
    startup::point_at(b.plan.t0, b.plan.h, b.places, i)
}

// The epoch, at t0 as it came.
#[tactic(auto, unfolding(crate::specs::Questions::epoch_point, startup::specs::Points::state_at))]
fn epoch_point(b: Body) -> Point
    ensures { result ≡ epoch_point b }
{
    startup::state_at(b.places, 4).at(b.plan.t0)
}

// The end of the open step.
#[tactic(auto, unfolding(crate::specs::Questions::end_point, crate::specs::Tracks::step_point))]
fn end_point(b: Body) -> Point
    ensures { result ≡ end_point b }
{
    b.trial.state.at(b.track.t + b.plan.h)
}

// Where the tail starts: the newest point.
#[tactic(auto, unfolding(crate::specs::Tracks::tail_from))]
pub fn tail_from(track: Track) -> Point
    ensures { result ≡ tail_from track }
{
    track.state.at(track.t)
}

// The end of the tail, at tf itself.
#[tactic(auto, unfolding(crate::specs::Questions::last_point, crate::specs::Tracks::final_point))]
fn last_point(b: Body) -> Point
    ensures { result ≡ last_point b }
{
    b.trial.state.at(b.plan.tf)
}

// No question is open there.
#[tactic(auto, unfolding(crate::specs::Questions::no_point))]
fn no_point() -> Point
    ensures { result ≡ no_point }
{
    let zero = Triple::zero();
    Point {
        t: 0.0,
        r: zero,
        v: zero,
    }
}

#[tactic(auto, unfolding(crate::specs::Questions::question_at))]
pub fn question_at(w: Waiting, b: Body) -> Point
    ensures { result ≡ question_at w b }
{
    match w {
        Waiting::Epoch => epoch_point(b),
        Waiting::Forward(i, s) => stage_question(s, grid_point(b, i), b.plan.h, b.slopes),
        Waiting::Backward(i, s) => stage_question(s, grid_point(b, i), -b.plan.h, b.slopes),
        Waiting::Survey(i) | Waiting::Pass(i) => grid_point(b, i),
        Waiting::Step(_) => end_point(b),
        Waiting::Tail(s) => {
            let from = tail_from(b.track);
            let rem = conditions::left_at(b.plan, b.track.t);
            stage_question(s, from, rem, b.slopes)
        }
        Waiting::TailSample => last_point(b),
        Waiting::Ended | Waiting::Unknown => no_point(),
    }
}
