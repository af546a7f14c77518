// SPDX-License-Identifier: MIT OR Apache-2.0
// The startup's nine points: their times and places, what a pass makes of them, and when the passes stop.
// By parts of the run; nothing here asks a question.
#![tactic(auto)]

ghost use Rattle.std.specs.Prelude.{◌≡◌};
ghost use Rattle.startup.specs.Points.{time_at, state_at, point_at, first_places, placed};

use triple::{Point, State, Triple, nine};

pub mod passes;

// Position and velocity of the nine points; the epoch is point 4. Two arrays and no array of states: so C lends them, and so the stored form has them.
#[repr(C)]
#[derive(Clone, Copy)]
pub struct Places {
    pub r: [Triple; 9],
    pub v: [Triple; 9],
}

// The largest change and the largest acceleration that the open pass has met.
#[repr(C)]
#[derive(Clone, Copy)]
pub struct Widest {
    pub delta: f64,
    pub mag: f64,
}

// The time of point i.
pub fn time_at(t0: f64, h: f64, i: u8) -> f64
    ensures { result ≡ time_at t0 h i }
{
    t0 + (f64::from(i) - 4.0) * h
}

pub fn first_places(r0: Triple, v0: Triple) -> Places
    ensures { result ≡ first_places r0 v0 }
{
    Places {
        r: nine::replaced(nine::zeros(), 4, r0),
        v: nine::replaced(nine::zeros(), 4, v0),
    }
}

pub fn state_at(places: Places, i: u8) -> State
    ensures { result ≡ state_at places i }
{
    State {
        r: nine::element(places.r, usize::from(i)),
        v: nine::element(places.v, usize::from(i)),
    }
}

// Point i, with its time.
#[tactic(auto, unfolding(crate::specs::Points::point_at, crate::specs::Points::state_at))]
pub fn point_at(t0: f64, h: f64, places: Places, i: u8) -> Point
    ensures { result ≡ point_at t0 h places i }
{
    state_at(places, i).at(time_at(t0, h, i))
}

// The places with point i at x.
pub fn place(i: u8, x: State, places: Places) -> Places
    ensures { result ≡ placed i x places }
{
    Places {
        r: nine::replaced(places.r, usize::from(i), x.r),
        v: nine::replaced(places.v, usize::from(i), x.v),
    }
}
