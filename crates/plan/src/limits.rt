// SPDX-License-Identifier: MIT OR Apache-2.0
// What a plan may hold: settings within document 01's limits, and, by W-202, a start, an end and a step that are finite.
ghost use Rattle.std.specs.Prelude.{◌≡◌};
ghost use Rattle.plan.specs.Limits.{are_within_limits, wants_samples};
ghost use Rattle.plan.specs.Lawful.{is_dated, is_lawful};

use crate::{Plan, Settings};

const MAX_PASSES: u64 = 100;

const MAX_STEPS: u64 = 1_000_000;

const MAX_FLAG: u8 = 1;

pub fn are_within_limits(s: Settings) -> bool
    ensures { result ≡ are_within_limits s }
{
    if s.max_startup_iters > MAX_PASSES {
        return false;
    }
    if s.max_corrector_iters > MAX_PASSES {
        return false;
    }
    if s.samples > MAX_FLAG {
        return false;
    }
    s.max_steps <= MAX_STEPS
}

pub fn wants_samples(s: Settings) -> bool
    ensures { result ≡ wants_samples s }
{
    s.samples == 1
}

// Whether start, end and step are finite: the step as it was set, and with its direction.
pub fn is_dated(p: Plan) -> bool
    ensures { result ≡ is_dated p }
{
    let dates = triple::is_finite(p.t0) & triple::is_finite(p.tf);
    dates & triple::is_finite(p.settings.h) & triple::is_finite(p.h)
}

// Whether a run may hold this plan. A start and every later call ask the same.
pub fn is_lawful(p: Plan) -> bool
    ensures { result ≡ is_lawful p }
{
    if !are_within_limits(p.settings) {
        return false;
    }
    is_dated(p)
}
