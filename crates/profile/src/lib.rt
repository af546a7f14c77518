// SPDX-License-Identifier: MIT OR Apache-2.0
// W-206, the whole-second profile: what a run of whole numbers costs, told before it is begun; and a start that tells it. What is accepted here
// finishes on time, whatever the force says, if every call brings room for the samples.
#![tactic(auto)]

ghost use Rattle.std.specs.Prelude.{◌≡◌};
ghost use Rattle.profile.specs.Costs.{no_cost, forecast_of};
ghost use Rattle.profile.specs.Start.{with_cost, started_whole};

use gauss_jackson::{Answered, Outcome};
use plan::{Settings, limits};
use refusals::Refusal;
use run::Run;
use triple::Triple;

mod costs;
mod wholes;

// What a run takes. `samples` is the room in samples, `numbers` the same room in numbers of the lent buffer: both 0 where no samples are wanted.
// `least` and `most` bound the answers that will be accepted.
#[repr(C)]
#[derive(Clone, Copy)]
pub struct Cost {
    pub steps: u64,
    pub samples: u64,
    pub numbers: u64,
    pub least: u64,
    pub most: u64,
}

// What a start in this profile tells. With a refusal the cost is all zero, as C has it: so the two stand side by side, and `with_cost` says both.
#[derive(Clone, Copy)]
pub struct WholeTold {
    pub outcome: Outcome,
    pub cost: Cost,
}

// The run to go on with, which is the plain start's own, and what is told.
#[derive(Clone, Copy)]
pub struct WholeStart {
    pub run: Run,
    pub told: WholeTold,
}

// With a refusal no cost is told.
pub fn no_cost() -> Cost
    ensures { result ≡ no_cost }
{
    Cost {
        steps: 0,
        samples: 0,
        numbers: 0,
        least: 0,
        most: 0,
    }
}

// What a run would take, without a run; or the refusal that its start would get: 5, 12, 13, 1 or 14, in this order.
#[tactic(auto, using(crate::proofs::Forecasts::small), unfolding(crate::specs::Costs::forecast_of, crate::specs::Costs::span_in, crate::specs::Costs::step_in))]
pub fn forecast(settings: Settings, t0: f64, tf: f64) -> Result<Cost, Refusal>
    ensures { result ≡ forecast_of settings t0 tf }
{
    let plan = plan::plan_of(settings, t0, tf);
    if !limits::are_within_limits(settings) {
        return Err(Refusal::Setting);
    }
    if !limits::is_dated(plan) {
        return Err(Refusal::BlankDate);
    }
    let Some(steps) = costs::steps_between(t0, tf, settings.h) else {
        return Err(Refusal::NotWhole);
    };
    if plan::is_too_near(plan) {
        return Err(Refusal::StepNotFinite);
    }
    if settings.max_steps < steps {
        return Err(Refusal::TooFewSteps);
    }
    Ok(costs::cost_between(settings, t0, tf, steps))
}

fn with_cost(done: Answered, cost: Cost) -> WholeStart
    ensures { result ≡ with_cost done cost }
{
    WholeStart {
        run: done.run,
        told: WholeTold {
            outcome: done.outcome,
            cost,
        },
    }
}

// A start in this profile: the plain start's run with question 0, and the cost; or a refusal with a run that is ended.
#[tactic(auto, unfolding(crate::specs::Start::started_whole, crate::specs::Start::whole_by))]
pub fn start_whole(settings: Settings, t0: f64, tf: f64, r0: Triple, v0: Triple) -> WholeStart
    ensures { result ≡ started_whole settings t0 tf r0 v0 }
{
    match forecast(settings, t0, tf) {
        Ok(cost) => with_cost(gauss_jackson::start(settings, t0, tf, r0, v0), cost),
        Err(refusal) => with_cost(gauss_jackson::refuse(refusal), no_cost()),
    }
}
