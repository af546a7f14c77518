// SPDX-License-Identifier: MIT OR Apache-2.0
// Whole numbers in f64, judged exactly and read off.
ghost use Rattle.std.specs.Prelude.{◌≡◌, ◌≤◌, true, unsigned_abs};
ghost use Rattle.triple.specs.Doubles.{Double};
ghost use Rattle.counting.specs.Counting.{span_of};
ghost use Rattle.profile.specs.Countable.{far_apart};
ghost use Rattle.profile.specs.Wholes.{whole_of, is_whole_time, is_whole_step, are_whole};

// 2^50
const FARTHEST: f64 = 1125899906842624.0;

const LONGEST: u64 = 1_000_000_000;

// Whether t is a whole number of at most 2^50 in size: then its whole part, as a float, is the same size again.
pub fn is_whole_time(t: f64) -> bool
    ensures { result ≡ is_whole_time t }
{
    let size = triple::abs(t);
    if size <= FARTHEST {
        let part = std::num::truncating_f64_to_u64(size);
        let again = std::num::nearest_u64_to_f64(part);
        return again == size;
    }
    false
}

// The size of a whole number, whose test stands by itself: `are_whole` makes it of three numbers before one is read. Its caller has the number in a
// record, of which no type says that it is an f64: that is said here.
pub fn size_of(x: f64) -> u64
    requires { is_whole_time x ≡ true }
    ensures { (result ≡ unsigned_abs (whole_of x)) × Double x }
{
    let size = triple::abs(x);
    std::num::truncating_f64_to_u64(size)
}

// How far two whole numbers lie apart: the difference of the floats is exact.
pub fn span_of(t0: f64, tf: f64) -> u64
    requires { (is_whole_time t0 ≡ true) × (is_whole_time tf ≡ true) }
    ensures { (result ≡ span_of (whole_of t0) (whole_of tf)) × (result ≤ far_apart) × Double t0 × Double tf }
{
    let span = triple::abs(tf - t0);
    std::num::truncating_f64_to_u64(span)
}

// Whether h is a whole number from 1 to 10^9 in size.
pub fn is_whole_step(h: f64) -> bool
    ensures { result ≡ is_whole_step h }
{
    if !is_whole_time(h) {
        return false;
    }
    let size = size_of(h);
    if size < 1 {
        return false;
    }
    size <= LONGEST
}

// Whether start, end and step are whole and within the bounds.
pub fn are_whole(t0: f64, tf: f64, h: f64) -> bool
    ensures { result ≡ are_whole t0 tf h }
{
    let start = is_whole_time(t0);
    let end = is_whole_time(tf);
    let step = is_whole_step(h);
    start & end & step
}
