// SPDX-License-Identifier: MIT OR Apache-2.0
// Nine triples, as the points of a startup and the window of accelerations are kept. Total for every index.
ghost use Rattle.std.specs.Prelude.{◌≡◌, set};
ghost use Rattle.triple.specs.Nine.{at, slid, nine_zeros};

use crate::Triple;

// Nine times the zero triple.
pub fn zeros() -> [Triple; 9]
    ensures { result ≡ nine_zeros }
{
    let zero = Triple::zero();
    [zero; 9]
}

// Triple i, and past the last one three NaN.
pub fn element(l: [Triple; 9], i: usize) -> Triple
    ensures { result ≡ at l i }
{
    l.get(i).copied().unwrap_or(Triple::thrice(f64::NAN))
}

// The nine with t as triple i, and past the last one unchanged.
pub fn replaced(l: [Triple; 9], i: usize, t: Triple) -> [Triple; 9]
    ensures { result ≡ set l i t }
{
    if i < 9 {
        let mut next = l;
        next[i] = t;
        return next;
    }
    l
}

// The oldest goes, t comes in as the newest.
pub fn slid(l: [Triple; 9], t: Triple) -> [Triple; 9]
    ensures { result ≡ slid l t }
{
    [l[1], l[2], l[3], l[4], l[5], l[6], l[7], l[8], t]
}
