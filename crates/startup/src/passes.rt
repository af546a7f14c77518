// SPDX-License-Identifier: MIT OR Apache-2.0
// A startup pass: every point but the epoch corrected from the same accelerations, and the test that ends the passes. The step and the
// accelerations stay arguments, as in `sums`.
ghost use Rattle.std.specs.Prelude.{◌≡◌};
ghost use Rattle.startup.specs.Passes.{points_on, points_back, pass_places, last_sums, widened, calm_at, is_settled};

use crate::{Places, Widest};
use sums::Sums;
use triple::{State, Triple};

// Points 5 to 8, each by its own sums. On and back stay two functions: every number differs, and the acceleration that goes into a point's sums
// is its own on the way on, its neighbour's on the way back.
fn points_on(h: f64, epoch: Sums, a: [Triple; 9]) -> [State; 4]
    ensures { result ≡ points_on h epoch a }
{
    let s5 = epoch.on(a[5]);
    let s6 = s5.on(a[6]);
    let s7 = s6.on(a[7]);
    let s8 = s7.on(a[8]);
    [
        sums::point_of(5, h, s5, a),
        sums::point_of(6, h, s6, a),
        sums::point_of(7, h, s7, a),
        sums::point_of(8, h, s8, a),
    ]
}

// Points 3 to 0, each by its own sums.
fn points_back(h: f64, epoch: Sums, a: [Triple; 9]) -> [State; 4]
    ensures { result ≡ points_back h epoch a }
{
    let s3 = epoch.back(a[4]);
    let s2 = s3.back(a[3]);
    let s1 = s2.back(a[2]);
    let s0 = s1.back(a[1]);
    [
        sums::point_of(3, h, s3, a),
        sums::point_of(2, h, s2, a),
        sums::point_of(1, h, s1, a),
        sums::point_of(0, h, s0, a),
    ]
}

// The places that a pass asks at: all corrected from the same a, the epoch kept.
pub fn corrected(h: f64, places: Places, a: [Triple; 9]) -> Places
    ensures { result ≡ pass_places h places a }
{
    let p4 = crate::state_at(places, 4);
    let sums = sums::at_epoch(h, p4, a);
    let [p3, p2, p1, p0] = points_back(h, sums, a);
    let [p5, p6, p7, p8] = points_on(h, sums, a);
    Places {
        r: [p0.r, p1.r, p2.r, p3.r, p4.r, p5.r, p6.r, p7.r, p8.r],
        v: [p0.v, p1.v, p2.v, p3.v, p4.v, p5.v, p6.v, p7.v, p8.v],
    }
}

// The sums at point 8, once the startup is done.
pub fn last_sums(h: f64, places: Places, a: [Triple; 9]) -> Sums
    ensures { result ≡ last_sums h places a }
{
    let epoch = crate::state_at(places, 4);
    sums::at_epoch(h, epoch, a)
        .on(a[5])
        .on(a[6])
        .on(a[7])
        .on(a[8])
}

// A point's acceleration went from `before` to `after`.
pub fn widen(w: Widest, before: Triple, after: Triple) -> Widest
    ensures { result ≡ widened w before after }
{
    let delta = triple::larger_of(w.delta, after.minus(before).size());
    let mag = triple::larger_of(w.mag, after.size());
    Widest { delta, mag }
}

// What a pass starts from: the epoch, whose acceleration stays.
pub fn calm_at(a: [Triple; 9]) -> Widest
    ensures { result ≡ calm_at a }
{
    let w = Widest {
        delta: 0.0,
        mag: 1.0e-30,
    };
    widen(w, a[4], a[4])
}

// Whether the largest change over the largest acceleration is below the tolerance.
pub fn is_settled(tol: f64, w: Widest) -> bool
    ensures { result ≡ is_settled tol w }
{
    w.delta / w.mag < tol
}
