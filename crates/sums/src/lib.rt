// SPDX-License-Identifier: MIT OR Apache-2.0
// Weighted sums of accelerations, the running sums s and S, and the positions and velocities that come of them,
// in 01's order of rounding. A row is named by a literal wherever it is known, so that its coefficients fold in.
// The step and the accelerations stay arguments: together they are no thing that the formulas speak of.
#![tactic(auto)]

ghost use Rattle.std.specs.Prelude.{◌≡◌, min, length};
ghost use Rattle.sums.specs.Weighted.{weighted, sum_of, fixed_sum};
ghost use Rattle.sums.specs.Sums.{epoch_sums, on_sums, back_sums, point_of, predicted_state, fixed_of, corrected_state};

use tables::{A, B, Table};
use triple::{State, Triple};

// The first sum s and the second, S, at one point.
#[repr(C)]
#[derive(Clone, Copy)]
pub struct Sums {
    pub s: Triple,
    pub big_s: Triple,
}

// FA and FB: the part of a corrector pass that no pass changes.
#[repr(C)]
#[derive(Clone, Copy)]
pub struct Fixed {
    pub fa: Triple,
    pub fb: Triple,
}

// The sum of a[k]·row[k], from k = 0 on, as far as both go.
fn weighted(a: &[Triple], row: &[f64]) -> Triple
    ensures { result ≡ weighted a.now row.now (min (length a.now) (length row.now)) }
{
    let mut sum = Triple::zero();
    for (b, c) in a.iter().zip(row) {
        sum = sum.plus(b.times(*c));
    }
    sum
}

// The sum over all nine with row i of a table.
fn sum_of<T: Table>(i: usize, a: [Triple; 9]) -> Triple
    ensures { result ≡ sum_of T.at i a }
{
    weighted(&a, &tables::row::<T>(i))
}

// The sum over the last eight, each with the coefficient one to the left, in row 8 of a table.
fn fixed_sum<T: Table>(a: [Triple; 9]) -> Triple
    ensures { result ≡ fixed_sum T.at a }
{
    weighted(&a[1..], &tables::row::<T>(8))
}

// The sums at the epoch, from its state and all nine accelerations.
pub fn at_epoch(h: f64, epoch: State, a: [Triple; 9]) -> Sums
    ensures { result ≡ epoch_sums h epoch a }
{
    let s = epoch.v.over(h).minus(sum_of::<B>(4, a));
    let big_s = epoch.r.over(h * h).minus(sum_of::<A>(4, a));
    Sums { s, big_s }
}

// Where the startup's point i stands, by its own sums.
pub fn point_of(i: usize, h: f64, sums: Sums, a: [Triple; 9]) -> State
    ensures { result ≡ point_of i h sums a }
{
    let r = sums.big_s.plus(sum_of::<A>(i, a)).times(h * h);
    let v = sums.s.plus(sum_of::<B>(i, a)).times(h);
    State { r, v }
}

// The state one step on, before any acceleration there is known.
pub fn predicted(h: f64, sums: Sums, a: [Triple; 9]) -> State
    ensures { result ≡ predicted_state h sums a }
{
    let r = sums.big_s.plus(sums.s).plus(sum_of::<A>(9, a)).times(h * h);
    let v = sums.s.plus(sum_of::<B>(9, a)).times(h);
    State { r, v }
}

pub fn fixed_of(a: [Triple; 9]) -> Fixed
    ensures { result ≡ fixed_of a }
{
    let fa = fixed_sum::<A>(a);
    let fb = fixed_sum::<B>(a);
    Fixed { fa, fb }
}

// The state one step on, by the acceleration b that was got there.
pub fn corrected(h: f64, sums: Sums, fixed: Fixed, b: Triple) -> State
    ensures { result ≡ corrected_state h sums fixed b }
{
    let a88 = tables::entry::<A>(8, 8);
    let b88 = tables::entry::<B>(8, 8);
    let r = sums
        .big_s
        .plus(sums.s)
        .plus(fixed.fa)
        .plus(b.times(a88))
        .times(h * h);
    let v = sums.s.plus(b).plus(fixed.fb).plus(b.times(b88)).times(h);
    State { r, v }
}

impl Sums {
    // The sums one point on, whose acceleration is b; S goes first, by the old s.
    pub fn on(self, b: Triple) -> Sums
        ensures { result ≡ on_sums self b }
    {
        let big_s = self.big_s.plus(self.s);
        let s = self.s.plus(b);
        Sums { s, big_s }
    }

    // The sums one point back, from the point whose acceleration is b.
    pub fn back(self, b: Triple) -> Sums
        ensures { result ≡ back_sums self b }
    {
        let big_s = self.big_s.minus(self.s).plus(b);
        let s = self.s.minus(b);
        Sums { s, big_s }
    }
}
