// SPDX-License-Identifier: MIT OR Apache-2.0
// What raises a count or an index: each is in range where `taking` calls it, and has a `requires` that says so. No type of smaller numbers
// holds them, since a run is laid out as C has it.
ghost use Rattle.std.specs.Prelude.{◌≡◌, ◌<◌};
ghost use Rattle.run.specs.Limits.{ample};
ghost use Rattle.run.specs.Tracks.{track_on};
ghost use Rattle.run.specs.Waiting.{next_point};
ghost use Rattle.run.specs.Moves.{pass_made, committed};

use plan::Plan;
use run::{Body, Track};
use triple::{State, Triple, nine};

// The point asked after point i: the epoch is passed over.
#[tactic(auto, unfolding(run::specs::Waiting::next_point))]
pub fn point_after(i: u8) -> u8
    requires { i < 8 }
    ensures { result ≡ next_point i }
{
    if i == 3 { 5 } else { i + 1 }
}

// One more startup pass is made.
#[tactic(auto, unfolding(run::specs::Moves::pass_made))]
pub fn end_pass(b: Body) -> Body
    requires { b.startup_iters < ample }
    ensures { result ≡ pass_made b }
{
    Body {
        startup_iters: b.startup_iters + 1,
        ..b
    }
}

// The newest point one step on: at x, with the acceleration a.
#[tactic(auto, unfolding(run::specs::Tracks::track_on))]
pub fn track_on(p: Plan, k: Track, x: State, a: Triple) -> Track
    requires { k.steps < ample }
    ensures { result ≡ track_on p k x a }
{
    Track {
        t: k.t + p.h,
        steps: k.steps + 1,
        state: x,
        sums: k.sums.on(a),
    }
}

// The step is made: at x, with the acceleration a.
#[tactic(auto, unfolding(run::specs::Moves::committed))]
pub fn commit(b: Body, x: State, a: Triple) -> Body
    requires { b.track.steps < ample }
    ensures { result ≡ committed b x a }
{
    Body {
        a: nine::slid(b.a, a),
        track: track_on(b.plan, b.track, x, a),
        ..b
    }
}
