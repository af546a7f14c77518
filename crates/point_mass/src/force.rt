// SPDX-License-Identifier: MIT OR Apache-2.0
// The pull of a point mass at the origin. Kilometres and seconds; every operation rounded once, in the order of W-207. Total, NaN and zero too.
ghost use Rattle.std.specs.Prelude.{◌≡◌};
ghost use Rattle.point_mass.specs.Force.{distance, is_too_low, pull_at, answer_at};

use triple::Triple;

// WGS 84, km³/s².
const MU: f64 = 398600.4418;

// The pull at a position, and whether that is too low for an answer.
#[derive(Clone, Copy)]
pub struct Pulled {
    pub low: bool,
    pub a: Triple,
}

pub fn distance(r: Triple) -> f64
    ensures { result ≡ distance r }
{
    root::root(r.x * r.x + r.y * r.y + r.z * r.z)
}

// Below 1 km or NaN: a NaN is not at or above anything.
pub fn is_too_low(d: f64) -> bool
    ensures { result ≡ is_too_low d }
{
    !(d >= 1.0)
}

// The pull is worked out where that is too low as well.
pub fn pull_at(r: Triple) -> Pulled
    ensures { result ≡ pull_at r }
{
    let d = distance(r);
    let cube = d * d * d;
    let a = Triple {
        x: -MU * r.x / cube,
        y: -MU * r.y / cube,
        z: -MU * r.z / cube,
    };
    Pulled {
        low: is_too_low(d),
        a,
    }
}

// The pull that answers a question at a position; none where that is too low.
#[tactic(auto, unfolding(crate::specs::Force::answer_at))]
pub fn answer_at(r: Triple) -> Option<Triple>
    ensures { result ≡ answer_at r }
{
    let pulled = pull_at(r);
    if pulled.low { None } else { Some(pulled.a) }
}
