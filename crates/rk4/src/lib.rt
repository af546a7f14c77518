// SPDX-License-Identifier: MIT OR Apache-2.0
// One classical RK4 step from a point over h, without a force of its own: what is asked next, from the accelerations
// l1, l2, .. got so far, and where the step ends. The first question is the point itself.
// Each function takes just what its formula has: a record of point, step and slopes would have slopes that are not known yet.
// The order of rounding is 01's ("RK4: half steps use h·0.5; ..") and, within a stage, the module's rk4_step.
#![tactic(auto)]

ghost use Rattle.std.specs.Prelude.{◌≡◌};
ghost use Rattle.rk4.specs.Rk4.{half_on, step_on, averaged, second_question, third_question, fourth_question, end_of_step};

use triple::{Point, State, Triple};

// 1 / 6, rounded; the step is never divided by six.
const SIXTH: f64 = 0.16666666666666666;

// The second question, once l1 is known.
pub fn second_question(p: Point, h: f64, l1: Triple) -> Point
    ensures { result ≡ second_question p h l1 }
{
    let half = h * 0.5;
    let r = p.r.plus(p.v.times(half));
    let v = half_on(p, h, l1);
    Point {
        t: p.t + half,
        r,
        v,
    }
}

// The third question.
pub fn third_question(p: Point, h: f64, l1: Triple, l2: Triple) -> Point
    ensures { result ≡ third_question p h l1 l2 }
{
    let half = h * 0.5;
    let r = p.r.plus(half_on(p, h, l1).times(half));
    let v = half_on(p, h, l2);
    Point {
        t: p.t + half,
        r,
        v,
    }
}

// The fourth question.
pub fn fourth_question(p: Point, h: f64, l2: Triple, l3: Triple) -> Point
    ensures { result ≡ fourth_question p h l2 l3 }
{
    let r = p.r.plus(half_on(p, h, l2).times(h));
    let v = step_on(p, h, l3);
    Point { t: p.t + h, r, v }
}

// Where the step ends, once all four are known; the time there is the caller's affair.
pub fn end_of_step(p: Point, h: f64, l1: Triple, l2: Triple, l3: Triple, l4: Triple) -> State
    ensures { result ≡ end_of_step p h l1 l2 l3 l4 }
{
    let k2 = half_on(p, h, l1);
    let k3 = half_on(p, h, l2);
    let k4 = step_on(p, h, l3);
    let r = p.r.plus(averaged(h, p.v, k2, k3, k4));
    let v = p.v.plus(averaged(h, l1, l2, l3, l4));
    State { r, v }
}

// The velocity half a step on, by the acceleration l.
fn half_on(p: Point, h: f64, l: Triple) -> Triple
    ensures { result ≡ half_on p h l }
{
    p.v.plus(l.times(h * 0.5))
}

// The velocity a whole step on.
fn step_on(p: Point, h: f64, l: Triple) -> Triple
    ensures { result ≡ step_on p h l }
{
    p.v.plus(l.times(h))
}

// What the step adds, from its four slopes.
fn averaged(h: f64, a: Triple, b: Triple, c: Triple, d: Triple) -> Triple
    ensures { result ≡ averaged h a b c d }
{
    a.plus(b.times(2.0))
        .plus(c.times(2.0))
        .plus(d)
        .times(h * SIXTH)
}
