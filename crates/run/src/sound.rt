// SPDX-License-Identifier: MIT OR Apache-2.0
// Whether a question of a run is open: neither ended nor made up (01, answer 7).
ghost use Rattle.std.specs.Prelude.{◌≡◌, ◌<◌};
ghost use Rattle.run.specs.Sound.{is_idle, rank_of, forward_counts, backward_counts, point_counts, pass_counts, is_started_up, step_counts, body_counts, has_counts, is_sound, is_open_step};
ghost use Rattle.run.specs.Limits.{ample};
ghost use Rattle.run.specs.Ready.{Small};

use crate::waiting::{Stage, Waiting};
use crate::{Body, Mark, Run, waiting};
use plan::{Plan, Settings, limits};

const NUMBERING: u64 = 65536;

#[tactic(auto, unfolding(crate::specs::Sound::is_sound))]
pub fn is_sound(run: Run) -> bool
    ensures { result ≡ is_sound run }
{
    if !limits::is_lawful(run.body.plan) {
        return false;
    }
    let count = run.mark.count;
    u64::from(count.number) == count.evals % NUMBERING
        && has_counts(waiting::waits_at(run.mark), count.evals, run.body)
}

// No startup pass is made, and no step.
#[tactic(auto, unfolding(crate::specs::Sound::is_idle))]
fn is_idle(b: Body) -> bool
    ensures { result ≡ is_idle b }
{
    b.startup_iters == 0 && b.track.steps == 0
}

// Forward and back stay two functions: each number in them differs.
#[tactic(auto, unfolding(crate::specs::Sound::forward_counts))]
fn forward_counts(i: u8, s: Stage, e: u64) -> bool
    ensures { result ≡ forward_counts i s e }
{
    4 <= i && i <= 7 && e == 4 * u64::from(i) + u64::from(u8::from(s)) - 15
}

#[tactic(auto, unfolding(crate::specs::Sound::backward_counts))]
fn backward_counts(i: u8, s: Stage, e: u64) -> bool
    ensures { result ≡ backward_counts i s e }
{
    1 <= i && i <= 4 && e == 33 + u64::from(u8::from(s)) - 4 * u64::from(i)
}

// How many of the eight points other than the epoch come before point i.
#[tactic(auto, unfolding(crate::specs::Sound::rank_of))]
fn rank_of(i: u8) -> u64
    ensures { result ≡ rank_of i }
{
    if i < 4 {
        u64::from(i)
    } else {
        u64::from(i) - 1
    }
}

// e answers, of which `before` came before the points were asked.
#[tactic(auto, unfolding(crate::specs::Sound::point_counts))]
fn point_counts(i: u8, before: u64, e: u64) -> bool
    requires { before < ample }
    ensures { result ≡ point_counts i before e }
{
    i <= 8 && i != 4 && e == before + rank_of(i)
}

// `Small` stays a `requires`: a type that holds it would be a second copy of the settings, which a body and a plan have as they came, and each
// contract would have to say that they are the same.
#[tactic(auto, unfolding(crate::specs::Sound::pass_counts))]
fn pass_counts(i: u8, e: u64, b: Body) -> bool
    requires { Small b.plan.settings }
    ensures { result ≡ pass_counts i e b }
{
    b.startup_iters < b.plan.settings.max_startup_iters
        && b.track.steps == 0
        && point_counts(i, 41 + 8 * b.startup_iters, e)
}

// Whether so many startup passes can have been made, of at most `most`.
#[tactic(auto, unfolding(crate::specs::Sound::is_started_up))]
fn is_started_up(passes: u64, most: u64) -> bool
    ensures { result ≡ is_started_up passes most }
{
    passes <= most && (passes != 0 || most == 0)
}

// e answers after n steps, of which k belong to the open step.
#[tactic(auto, unfolding(crate::specs::Sound::step_counts))]
fn step_counts(k: u64, e: u64, s: Settings, passes: u64, n: u64) -> bool
    requires { Small s × (k < ample) }
    ensures { result ≡ step_counts k e s passes n }
{
    if !is_started_up(passes, s.max_startup_iters) {
        return false;
    }
    if n < 4 || n >= s.max_steps {
        return false;
    }
    let base = 41 + 8 * passes + k;
    base + (n - 4) <= e && e <= base + (n - 4) * (1 + s.max_corrector_iters)
}

fn body_counts(k: u64, e: u64, b: Body) -> bool
    requires { Small b.plan.settings × (k < ample) }
    ensures { result ≡ body_counts k e b }
{
    step_counts(k, e, b.plan.settings, b.startup_iters, b.track.steps)
}

// Whether a sound run waits at a step's end, by the parts that this takes: what `is_sound` finds there, without the rest of the run. By the
// mark's own numbers: a waiting point would be made at each answer only to be asked for this case.
#[tactic(auto, unfolding(crate::specs::Sound::is_open_step))]
pub fn is_open_step(m: Mark, p: Plan, passes: u64, n: u64) -> bool
    ensures { result ≡ is_open_step m p passes n }
{
    if m.at != 6 || m.stage > 3 {
        return false;
    }
    if !limits::is_lawful(p) {
        return false;
    }
    let e = m.count.evals;
    if u64::from(m.count.number) != e % NUMBERING {
        return false;
    }
    let k = u64::from(m.index);
    k <= p.settings.max_corrector_iters && step_counts(k, e, p.settings, passes, n)
}

#[tactic(auto, unfolding(crate::specs::Sound::has_counts))]
fn has_counts(w: Waiting, e: u64, b: Body) -> bool
    requires { Small b.plan.settings }
    ensures { result ≡ has_counts w e b }
{
    match w {
        Waiting::Epoch => e == 0 && is_idle(b),
        Waiting::Forward(i, s) => forward_counts(i, s, e) && is_idle(b),
        Waiting::Backward(i, s) => backward_counts(i, s, e) && is_idle(b),
        Waiting::Survey(i) => point_counts(i, 33, e) && is_idle(b),
        Waiting::Pass(i) => pass_counts(i, e, b),
        Waiting::Step(c) => {
            let k = u64::from(c);
            k <= b.plan.settings.max_corrector_iters && body_counts(k, e, b)
        }
        Waiting::Tail(s) => body_counts(u64::from(u8::from(s)), e, b),
        Waiting::TailSample => limits::wants_samples(b.plan.settings) && body_counts(4, e, b),
        Waiting::Ended | Waiting::Unknown => false,
    }
}
