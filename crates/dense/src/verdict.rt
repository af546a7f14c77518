// SPDX-License-Identifier: MIT OR Apache-2.0
// What a call is told, before anything is written: refusal 9, 3 or 4, in this order, or none.
ghost use Rattle.std.specs.Prelude.{◌≡◌};
ghost use Rattle.intervals.specs.Intervals.{ends_of};
ghost use Rattle.dense.specs.Interpolation.{is_misshapen, is_outside, any_outside, judged};

use crate::BETWEEN_NUMBERS;
use intervals::{Ends, table};
use refusals::Refusal;

// 9. The room is divided, since a product could overflow.
fn is_misshapen(times: &[f64], samples: &[f64], out: &[f64]) -> bool
    ensures { result ≡ is_misshapen times.now samples.now out.now }
{
    if samples.len() % triple::SAMPLE_WIDTH != 0 {
        return true;
    }
    out.len() / BETWEEN_NUMBERS < times.len()
}

// 4, of one time. A NaN is neither below nor above.
fn is_outside(ends: Ends, t: f64) -> bool
    ensures { result ≡ is_outside ends t }
{
    if t < ends.lower {
        return true;
    }
    t > ends.upper
}

// 4, of any time.
fn any_outside(times: &[f64], samples: &[f64]) -> bool
    ensures { result ≡ any_outside (ends_of samples.now) times.now }
{
    let ends = intervals::ends_of(samples);
    times.iter().any(|t| is_outside(ends, *t))
}

#[tactic(auto, unfolding(crate::specs::Interpolation::judged))]
pub fn judge(times: &[f64], samples: &[f64], out: &[f64]) -> Result<(), Refusal>
    ensures { result ≡ judged times.now samples.now out.now }
{
    if is_misshapen(times, samples, out) {
        return Err(Refusal::Shape);
    }
    if table::count_of(samples) < 2 {
        return Err(Refusal::NoDenseOutput);
    }
    if any_outside(times, samples) {
        return Err(Refusal::InterpOutOfBounds);
    }
    Ok(())
}
