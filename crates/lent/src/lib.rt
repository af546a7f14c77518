// SPDX-License-Identifier: MIT OR Apache-2.0
// 01: "a run lent by the caller and moved on where it stands". Each function calls the one by value and stores the run back.
#![tactic(auto)]

ghost use Rattle.std.specs.Prelude.{◌≡◌};
ghost use Rattle.gauss_jackson.specs.Answers.{started, answered};
ghost use Rattle.profile.specs.Start.{started_whole};
ghost use Rattle.run.specs.Samples.{tens, numbers_of};
ghost use Rattle.lent.specs.Told.{answer_told};

use gauss_jackson::Outcome;
use plan::Settings;
use profile::WholeTold;
use run::Run;
use triple::Triple;

// A start: the lent run becomes the started one, or an ended one where the start is refused.
pub fn start_lent(
    run: &mut Run,
    settings: Settings,
    t0: f64,
    tf: f64,
    r0: Triple,
    v0: Triple,
) -> Outcome
    ensures { (result ≡ (started settings t0 tf r0 v0).outcome) × (run.new ≡ (started settings t0 tf r0 v0).run) }
{
    let done = gauss_jackson::start(settings, t0, tf, r0, v0);
    *run = done.run;
    done.outcome
}

// A start in the whole-second profile: the lent run becomes the plain start's, with its cost told; or an ended one where the start is refused. No case
// of `start_lent`: each tells what its own start tells, here the cost too.
pub fn start_whole_lent(
    run: &mut Run,
    settings: Settings,
    t0: f64,
    tf: f64,
    r0: Triple,
    v0: Triple,
) -> WholeTold
    ensures { (result ≡ (started_whole settings t0 tf r0 v0).told) × (run.new ≡ (started_whole settings t0 tf r0 v0).run) }
{
    let done = profile::start_whole(settings, t0, tf, r0, v0);
    *run = done.run;
    done.told
}

// What an answer tells: its outcome, and how many samples it stored.
#[derive(Clone, Copy)]
pub struct AnswerTold {
    pub outcome: Outcome,
    pub stored: u64,
}

// An answer: the lent run moves on, or stays as it is where the answer is refused by 7 or 8. The room `out` begins at sample `from`.
pub fn answer_lent(run: &mut Run, number: u16, a: Triple, from: u64, out: &mut [f64]) -> AnswerTold
    ensures { (result ≡ answer_told (answered run.old number a (tens from out.old)).got)
        × (run.new ≡ (answered run.old number a (tens from out.old)).got.run)
        × (out.new ≡ numbers_of (answered run.old number a (tens from out.old)).out) }
{
    let done = gauss_jackson::answer(*run, number, a, from, out);
    *run = done.run;
    AnswerTold {
        outcome: done.outcome,
        stored: done.stored,
    }
}
