// SPDX-License-Identifier: MIT OR Apache-2.0
// The quintic between two samples: the one curve that meets time, position, velocity and acceleration of both.
// Evaluated in the order of the module's quintic_hermite, operation by operation; the acceleration, which the module does not tell, in its manner.
// Total, at equal times and NaN too.
#![tactic(auto)]

ghost use Rattle.std.specs.Prelude.{◌≡◌};
ghost use Rattle.quintic.specs.Quintic.{delta1, delta2, delta3, curve_of, position_on, velocity_on, acceleration_on, quintic_hermite};

use triple::{Sample, Triple};

// What is told of a time between two samples.
#[derive(Clone, Copy)]
pub struct Between {
    pub r: Triple,
    pub v: Triple,
    pub a: Triple,
}

// The three highest coefficients, in powers of s.
#[derive(Clone, Copy)]
pub struct Curve {
    pub c3: Triple,
    pub c4: Triple,
    pub c5: Triple,
}

// Position, velocity and acceleration at t on the curve between two samples.
pub fn quintic_hermite(from: Sample, to: Sample, t: f64) -> Between
    ensures { result ≡ quintic_hermite from to t }
{
    let h = to.t - from.t;
    let s = (t - from.t) / h;
    let curve = curve_of(h, from, to);
    let r = position_on(h, s, from, curve);
    let v = velocity_on(h, s, from, curve);
    let a = acceleration_on(h, s, from, curve);
    Between { r, v, a }
}

fn curve_of(h: f64, from: Sample, to: Sample) -> Curve
    ensures { result ≡ curve_of h from to }
{
    let d1 = first_gap(h, from, to);
    let d2 = second_gap(h, from, to);
    let d3 = third_gap(h, from, to);
    let c3 = d1.times(10.0).minus(d2.times(4.0)).plus(d3.times(0.5));
    let c4 = d1.times(-15.0).plus(d2.times(7.0)).minus(d3);
    let c5 = d1.times(6.0).minus(d2.times(3.0)).plus(d3.times(0.5));
    Curve { c3, c4, c5 }
}

// What position, velocity and acceleration at the far end have beyond the near end's own course.
fn first_gap(h: f64, from: Sample, to: Sample) -> Triple
    ensures { result ≡ delta1 h from to }
{
    to.r.minus(from.r)
        .minus(from.v.times(h))
        .minus(from.a.times(h * h * 0.5))
}

fn second_gap(h: f64, from: Sample, to: Sample) -> Triple
    ensures { result ≡ delta2 h from to }
{
    to.v.minus(from.v).times(h).minus(from.a.times(h * h))
}

fn third_gap(h: f64, from: Sample, to: Sample) -> Triple
    ensures { result ≡ delta3 h from to }
{
    to.a.minus(from.a).times(h * h)
}

fn position_on(h: f64, s: f64, from: Sample, curve: Curve) -> Triple
    ensures { result ≡ position_on h s from curve }
{
    let s2 = s * s;
    let s3 = s2 * s;
    let s4 = s3 * s;
    let s5 = s4 * s;
    let course = from
        .r
        .plus(from.v.times(h * s))
        .plus(from.a.times(h * h * 0.5 * s2));
    course
        .plus(curve.c3.times(s3))
        .plus(curve.c4.times(s4))
        .plus(curve.c5.times(s5))
}

fn velocity_on(h: f64, s: f64, from: Sample, curve: Curve) -> Triple
    ensures { result ≡ velocity_on h s from curve }
{
    let s2 = s * s;
    let s3 = s2 * s;
    let s4 = s3 * s;
    let course = from.v.plus(from.a.times(h * s));
    let bent = course
        .plus(curve.c3.times(3.0 * s2 / h))
        .plus(curve.c4.times(4.0 * s3 / h));
    bent.plus(curve.c5.times(5.0 * s4 / h))
}

fn acceleration_on(h: f64, s: f64, from: Sample, curve: Curve) -> Triple
    ensures { result ≡ acceleration_on h s from curve }
{
    let s2 = s * s;
    let s3 = s2 * s;
    let third = curve.c3.times(6.0 * s);
    let fourth = curve.c4.times(12.0 * s2);
    let fifth = curve.c5.times(20.0 * s3);
    let bent = third.plus(fourth).plus(fifth);
    from.a.plus(bent.over(h * h))
}
