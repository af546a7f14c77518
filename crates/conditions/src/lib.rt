// SPDX-License-Identifier: MIT OR Apache-2.0
// The tests that the steps of a run turn on: whether one more is due, whether that is the tail, and whether a step's corrections have come to
// rest.
#![tactic(auto)]

ghost use Rattle.std.specs.Prelude.{◌≡◌};
ghost use Rattle.conditions.specs.Conditions.{left_at, is_due, is_tail, is_still, is_at_rest};
ghost use Rattle.conditions.specs.Usual.{is_usual};

use plan::Plan;
use triple::{State, Triple};

// The time left at t, with its sign.
pub fn left_at(p: Plan, t: f64) -> f64
    ensures { result ≡ left_at p t }
{
    p.tf - t
}

// Whether a further step is due at t.
pub fn is_due(p: Plan, t: f64) -> bool
    ensures { result ≡ is_due p t }
{
    (p.tf - t) * plan::direction_of(p.t0, p.tf) > 0.0
}

// Whether what is left at t is short of a step, so that a tail is due.
pub fn is_tail(p: Plan, t: f64) -> bool
    ensures { result ≡ is_tail p t }
{
    triple::abs(left_at(p, t)) - triple::abs(p.h) < -1.0e-12 * triple::abs(p.h)
}

// Whether mean squares may tell by themselves what a quotient of sizes is beside the tolerance.
fn is_usual(tol: f64, new: f64) -> bool
    ensures { result ≡ is_usual tol new }
{
    if tol > 1.0e-60 {
        if tol < 1.0 {
            if new > 1.0e-45 {
                return new < 1.0e150;
            }
        }
    }
    false
}

// Whether a correction from `before` to `after` is below the tolerance, beside the new size. Where the change's mean square is not within a factor
// of two of the new one's times the tolerance's square, that tells it, and no root is worked out.
fn is_still(tol: f64, before: Triple, after: Triple) -> bool
    ensures { result ≡ is_still tol before after }
{
    let change = after.minus(before).mean_square();
    let new = after.mean_square();
    if is_usual(tol, new) {
        let limit = new * tol * tol;
        if change * 2.0 < limit {
            return true;
        }
        if limit * 2.0 < change {
            return false;
        }
    }
    root::root(change) / (root::root(new) + 1.0e-30) < tol
}

// Whether the passes of a step stop: both position and velocity are still. Beside a tolerance that is not above zero nothing is, whatever
// the sizes.
pub fn is_at_rest(tol: f64, before: State, after: State) -> bool
    ensures { result ≡ is_at_rest tol before after }
{
    if tol > 0.0 {
        if is_still(tol, before.r, after.r) {
            return is_still(tol, before.v, after.v);
        }
    }
    false
}
