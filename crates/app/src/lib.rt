// SPDX-License-Identifier: MIT OR Apache-2.0
// What an app links: the whole run and the samples between, for C and for Rust. Thin over the proved functions, and proved themselves.
// No function here depends on its caller's care beyond what a pointer needs; include/gauss_jackson.h says that, and the layouts.
#![tactic(auto)]

ghost use Rattle.std.specs.Prelude.{◌≡◌, [], ◌∷◌};
ghost use Rattle.plan.specs.Plan.{default_settings};
ghost use Rattle.gauss_jackson.specs.Answers.{started, answered, open_question};
ghost use Rattle.run.specs.Samples.{tens, numbers_of};
ghost use Rattle.refusals.specs.Numbers.{number_told};
ghost use Rattle.stored.specs.Stored.{storing, stored_in, loaded};
ghost use Rattle.dense.specs.Interpolation.{judged, interpolated, batched};
ghost use Rattle.profile.specs.Costs.{forecast_of};
ghost use Rattle.profile.specs.Start.{started_whole};
ghost use Rattle.app.specs.Reply.{abi_number, reply_of, answer_reply, cost_reply_of, whole_reply_of};

use fastpath::Look;
use plan::Settings;
use profile::Cost;
use run::Run;
use triple::Triple;

mod lending;
mod replies;

// An outcome in plain numbers, for C, as all that these calls tell. `kind` is 0 for a question, 1 for the finished state, 2 for a refusal; what a kind has no use for is zero.
// `stored` is how many samples the call stored, whatever its kind.
#[repr(C)]
#[derive(Clone, Copy)]
pub struct Reply {
    pub t: f64,
    pub r: Triple,
    pub v: Triple,
    pub evals: u64,
    pub steps: u64,
    pub startup_iters: u64,
    pub stored: u64,
    pub kind: u32,
    pub refusal: u16,
    pub number: u16,
}

// A forecast in plain numbers, for C: `refusal` is 0 and the cost stands, or it is the refusal's number and the cost is all zero.
#[repr(C)]
#[derive(Clone, Copy)]
pub struct CostReply {
    pub cost: Cost,
    pub refusal: u32,
}

// What a start in the whole-second profile tells: as a plain start, and the cost beside it.
#[repr(C)]
#[derive(Clone, Copy)]
pub struct WholeReply {
    pub reply: Reply,
    pub cost: Cost,
}

const ABI_NUMBER: u32 = 3;

// The number of this interface, which its name has too: it goes up when the run's size or a call's shape changes, so that a program that
// was built against another one does not link.
#[unsafe(no_mangle)]
pub extern "C" fn gj_abi_3() -> u32
    ensures { result ≡ abi_number }
{
    ABI_NUMBER
}

#[unsafe(no_mangle)]
pub extern "C" fn gj_default_settings() -> Settings
    ensures { result ≡ default_settings }
{
    gauss_jackson::default_settings()
}

// A start: the lent run becomes the started one, or an ended one where the start is refused.
#[unsafe(no_mangle)]
pub extern "C" fn gj_start(
    run: &mut Run,
    settings: Settings,
    t0: f64,
    tf: f64,
    r0: Triple,
    v0: Triple,
) -> Reply
    ensures { (result ≡ answer_reply (started settings t0 tf r0 v0)) × (run.new ≡ (started settings t0 tf r0 v0).run) }
{
    let done = gauss_jackson::start(settings, t0, tf, r0, v0);
    *run = done.run;
    Reply::from(done)
}

// W-206: what a run of whole numbers takes, before it is begun; or the refusal that its start would get (5, 12, 13, 1, 14).
#[unsafe(no_mangle)]
pub extern "C" fn gj_forecast(settings: Settings, t0: f64, tf: f64) -> CostReply
    ensures { result ≡ cost_reply_of (forecast_of settings t0 tf) }
{
    CostReply::from(profile::forecast(settings, t0, tf))
}

// A start in the whole-second profile: the plain start's run, with its cost; or an ended one where the start is refused.
#[unsafe(no_mangle)]
pub extern "C" fn gj_start_whole(
    run: &mut Run,
    settings: Settings,
    t0: f64,
    tf: f64,
    r0: Triple,
    v0: Triple,
) -> WholeReply
    ensures { (result ≡ whole_reply_of (started_whole settings t0 tf r0 v0).told) × (run.new ≡ (started_whole settings t0 tf r0 v0).run) }
{
    let done = profile::start_whole(settings, t0, tf, r0, v0);
    *run = done.run;
    WholeReply::from(done.told)
}

// An answer: the lent run moves on, or stays as it is where the answer is refused by 7 or 8. `out` is the room for samples, which begins
// at sample `from`.
#[unsafe(no_mangle)]
pub extern "C" fn gj_answer(
    run: &mut Run,
    number: u16,
    a: Triple,
    from: u64,
    out: &mut [f64],
) -> Reply
    ensures { (result ≡ answer_reply (answered run.old number a (tens from out.old)).got)
        × (run.new ≡ (answered run.old number a (tens from out.old)).got.run)
        × (out.new ≡ numbers_of (answered run.old number a (tens from out.old)).out) }
{
    match fastpath::look_at(
        run.mark,
        run.body.plan,
        run.body.track,
        run.body.trial,
        run.body.startup_iters,
        number,
        a,
        from,
        out.len(),
    ) {
        Look::Again { mark, state } => lending::try_again(run, mark, state),
        Look::On { mark, state, steps } => {
            lending::step_on(run, mark, state, steps, a, from, out)
        },
        Look::Away { .. } => lending::answer_plainly(run, number, a, from, out),
    }
}

// The question that the run waits for, once more; refusal 7 where there is none.
#[unsafe(no_mangle)]
pub extern "C" fn gj_open_question(run: &Run) -> Reply
    ensures { result ≡ reply_of (open_question run.now) 0 }
{
    replies::reply_of(gauss_jackson::open_question(*run), 0)
}

// The run put away in `out`, 2,048 bytes: for C 0, or the number of the refusal (7, 10), and then `out` is as it was.
#[unsafe(no_mangle)]
pub extern "C" fn gj_store(run: &Run, out: &mut [u8]) -> u32
    ensures { (result ≡ number_told (storing run.now out.old))
        × (out.new ≡ stored_in run.now out.old) }
{
    u32::from(refusals::number_told(stored::store(*run, out)))
}

// A stored run taken up again: the lent run becomes it and the reply is its open question; refused (10, 11), the lent run stays as it is.
#[unsafe(no_mangle)]
pub extern "C" fn gj_load(run: &mut Run, bytes: &[u8]) -> Reply
    ensures { (result ≡ answer_reply (loaded run.old bytes.now))
        × (run.new ≡ (loaded run.old bytes.now).run) }
{
    let done = stored::load(*run, bytes);
    *run = done.run;
    Reply::from(done)
}

// Position, velocity and acceleration at t, nine numbers of `out`: for C 0, or the number of the refusal (9, 3, 4).
#[unsafe(no_mangle)]
pub extern "C" fn gj_interpolate(t: f64, samples: &[f64], out: &mut [f64]) -> u32
    ensures value { result ≡ number_told (judged (t ∷ []) samples.now out.old) }
    ensures out_after { out.new ≡ interpolated t samples.now out.old }
{
    u32::from(refusals::number_told(dense::interpolate(t, samples, out)))
}

// The same at each of the times, in one walk through the samples; for C a number again.
#[unsafe(no_mangle)]
pub extern "C" fn gj_interpolate_batch(times: &[f64], samples: &[f64], out: &mut [f64]) -> u32
    ensures value { result ≡ number_told (judged times.now samples.now out.old) }
    ensures out_after { out.new ≡ batched times.now samples.now out.old }
{
    let told = dense::interpolate_batch(times, samples, out);
    u32::from(refusals::number_told(told))
}
