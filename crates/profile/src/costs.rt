// SPDX-License-Identifier: MIT OR Apache-2.0
// 01, "Counting beforehand", in numbers of 64 bits. No count comes near to wrapping: the largest is below 2^58.
ghost use Rattle.std.specs.Prelude.{◌≡◌, true, ◌+◌, ◌*◌, ◌≤◌, if◌then◌else◌, unsigned_abs};
ghost use Rattle.plan.specs.Limits.{wants_samples};
ghost use Rattle.run.specs.Ready.{Small};
ghost use Rattle.counting.specs.Counting.{span_of, steps_for, tail_for, fewest_for};
ghost use Rattle.profile.specs.Wholes.{whole_of, are_whole};
ghost use Rattle.profile.specs.Costs.{span_in, step_in, cost_for};
ghost use Rattle.profile.specs.Countable.{far_apart, Countable, Far, Apart};

use crate::{Cost, wholes};
use plan::{Settings, limits};
use triple::SAMPLE_WIDTH;

// K, of any whole numbers within the bounds.
fn steps_for(span: u64, step: u64) -> u64
    requires { Countable span step }
    ensures { result ≡ steps_for span step }
{
    (span + (step - 1)) / step
}

// K from t0 to tf by h; none where they are not whole.
#[tactic(auto, using(crate::proofs::Plainly::three, crate::proofs::Reading::step_is_time, crate::proofs::Forecasts::countable))]
pub fn steps_between(t0: f64, tf: f64, h: f64) -> Option<u64>
    ensures { result ≡ (if are_whole t0 tf h then Some (steps_for (span_of (whole_of t0) (whole_of tf)) (unsigned_abs (whole_of h))) else None) }
{
    if !wholes::are_whole(t0, tf, h) {
        return None;
    }
    let span = wholes::span_of(t0, tf);
    let step = wholes::size_of(h);
    Some(steps_for(span, step))
}

// T
fn tail_for(span: u64, step: u64, steps: u64) -> u64
    requires { Far span step steps }
    ensures { (result ≡ tail_for span step) × (result ≤ 1) }
{
    if steps * step > span {
        return 1;
    }
    0
}

// T(4+d)
fn tail_answers(s: Settings, tail: u64) -> u64
    requires { tail ≤ 1 }
    ensures { (result ≡ tail * (4 + (if wants_samples s then 1 else 0))) × (result ≤ 5) }
{
    if limits::wants_samples(s) {
        return tail * 5;
    }
    tail * 4
}

// The samples that need room, one more than steps.
fn samples_for(s: Settings, steps: u64) -> u64
    requires { steps ≤ far_apart }
    ensures { (result ≡ (if wants_samples s then steps + 1 else 0)) × (result ≤ steps + 1) }
{
    if limits::wants_samples(s) {
        return steps + 1;
    }
    0
}

// The fewest startup passes.
fn fewest_for(s: Settings) -> u64
    ensures { (result ≡ fewest_for s) × (result ≤ 1) }
{
    if s.max_startup_iters == 0 {
        return 0;
    }
    1
}

// The cost of a run of eight steps or more, where K is `steps`. `Small` stays a `requires`, here and below, as in `run::sound`: a type that holds it
// would be a second copy of the settings.
fn cost_for(s: Settings, span: u64, step: u64, steps: u64) -> Cost
    requires { Far span step steps × Small s }
    ensures { result ≡ cost_for s span step }
{
    let tail = tail_for(span, step, steps);
    let plain = steps - 4 - tail;
    let extra = tail_answers(s, tail);
    let fewest = fewest_for(s);
    let samples = samples_for(s, steps);
    let least = 41 + 8 * fewest + plain + extra;
    let corrected = plain * (1 + s.max_corrector_iters);
    let most = 41 + 8 * s.max_startup_iters + corrected + extra;
    Cost {
        steps,
        samples,
        numbers: (SAMPLE_WIDTH as u64) * samples,
        least,
        most,
    }
}

// The cost of a run from t0 to tf, where they are whole and eight steps apart or more, and K is `steps`.
pub fn cost_between(s: Settings, t0: f64, tf: f64, steps: u64) -> Cost
    requires { Apart s t0 tf steps × Small s }
    ensures { result ≡ cost_for s (span_in t0 tf) (step_in s) }
{
    let span = wholes::span_of(t0, tf);
    let step = wholes::size_of(s.h);
    cost_for(s, span, step, steps)
}
