// SPDX-License-Identifier: MIT OR Apache-2.0
// Between samples: position, velocity and acceleration at one time, or at a row of times. Both functions take any numbers and any lengths; they
// refuse by 01's numbers, and their contracts say what every number of `out` is when they return.
#![tactic(auto)]

ghost use Rattle.std.specs.Prelude.{◌≡◌, [], ◌∷◌};
ghost use Rattle.dense.specs.Interpolation.{judged, interpolated, batched};

use refusals::Refusal;

mod verdict;
mod writing;

// How many numbers of `out` a time takes: position, velocity, acceleration.
pub const BETWEEN_NUMBERS: usize = 9;

// Position, velocity and acceleration at t, as the first numbers of `out`.
#[tactic(auto, unfolding(crate::specs::Interpolation::interpolated, crate::specs::Interpolation::unless))]
pub fn interpolate(t: f64, samples: &[f64], out: &mut [f64]) -> Result<(), Refusal>
    ensures value { result ≡ judged (t ∷ []) samples.now out.old }
    ensures out_after { out.new ≡ interpolated t samples.now out.old }
{
    verdict::judge(&[t], samples, out)?;
    let k = intervals::interval_of(samples, t);
    writing::store(0, writing::value(samples, k, t), out);
    Ok(())
}

// Position, velocity and acceleration at each of the times, one after the other in `out`. One walk through the table serves them all, so they are
// meant to stand in the table's own order; they need not.
#[tactic(auto, unfolding(crate::specs::Interpolation::batched, crate::specs::Interpolation::unless))]
pub fn interpolate_batch(times: &[f64], samples: &[f64], out: &mut [f64]) -> Result<(), Refusal>
    ensures value { result ≡ judged times.now samples.now out.old }
    ensures out_after { out.new ≡ batched times.now samples.now out.old }
{
    verdict::judge(times, samples, out)?;
    writing::write_all(times, samples, out);
    Ok(())
}
