// SPDX-License-Identifier: MIT OR Apache-2.0
// What a start is given and what never changes in a run afterwards: the settings, the plan that is made of them, and what is said of a start.
#![tactic(auto)]

ghost use Rattle.std.specs.Prelude.{◌≡◌};
ghost use Rattle.plan.specs.Plan.{direction_of, plan_of, is_too_near};
ghost use Rattle.plan.specs.Verdict.{verdict_on};

use refusals::Refusal;

pub mod limits;

// What a caller chooses, together as one record; `default_settings` has the module's values.
#[repr(C)]
#[derive(Clone, Copy)]
pub struct Settings {
    pub h: f64,
    pub corrector_tol: f64,
    pub startup_tol: f64,
    pub max_corrector_iters: u64,
    pub max_startup_iters: u64,
    pub max_steps: u64,
    // 0 or 1. A number and no bool, since C fills it: any other is over its limit, so that no byte that a caller lends leans on its care.
    pub samples: u8,
}

// What never changes in a run. `h` is the step with its direction.
#[repr(C)]
#[derive(Clone, Copy)]
pub struct Plan {
    pub settings: Settings,
    pub t0: f64,
    pub tf: f64,
    pub h: f64,
}

// 1 forward, -1 backward and where a time is NaN.
pub fn direction_of(t0: f64, tf: f64) -> f64
    ensures { result ≡ direction_of t0 tf }
{
    if tf >= t0 { 1.0 } else { -1.0 }
}

pub fn plan_of(settings: Settings, t0: f64, tf: f64) -> Plan
    ensures { result ≡ plan_of settings t0 tf }
{
    let h = triple::abs(settings.h) * direction_of(t0, tf);
    Plan {
        settings,
        t0,
        tf,
        h,
    }
}

// Whether refusal 1 is due: no step at all, or a span of fewer than eight.
pub fn is_too_near(p: Plan) -> bool
    ensures { result ≡ is_too_near p }
{
    if p.h == 0.0 {
        return true;
    }
    triple::abs((p.tf - p.t0) / p.h) < 8.0
}

// Whether a start with this plan is refused: 5, 12, then 1.
#[tactic(auto, unfolding(crate::specs::Verdict::verdict_on, crate::specs::Verdict::fault_of, crate::specs::Lawful::is_lawful))]
pub fn verdict_on(plan: Plan) -> Result<(), Refusal>
    ensures { result ≡ verdict_on plan }
{
    if !limits::are_within_limits(plan.settings) {
        return Err(Refusal::Setting);
    }
    if !limits::is_dated(plan) {
        return Err(Refusal::BlankDate);
    }
    if is_too_near(plan) {
        return Err(Refusal::StepNotFinite);
    }
    Ok(())
}
