// SPDX-License-Identifier: MIT OR Apache-2.0
// The lent run by an answer: of the fast path only what changes is stored; by any other answer the run is copied out and put back whole.
ghost use Rattle.std.specs.Prelude.{◌≡◌};
ghost use Rattle.gauss_jackson.specs.Answers.{answered};
ghost use Rattle.run.specs.Samples.{tens, numbers_of};
ghost use Rattle.fastpath.specs.Moving.{asked_again, made_step, kept_step};
ghost use Rattle.app.specs.Reply.{asks_for, answer_reply, stepped_reply, tried_run, stepped_run};

use crate::{Reply, replies};
use run::{Mark, Run};
use triple::{State, Triple};

// The open step is tried once more.
pub fn try_again(run: &mut Run, mark: Mark, state: State) -> Reply
    ensures { (result ≡ asks_for (asked_again mark state run.old.body.plan run.old.body.track run.old.body.trial).question 0)
        × (run.new ≡ tried_run run.old (asked_again mark state run.old.body.plan run.old.body.track run.old.body.trial)) }
{
    let done = fastpath::ask_again(mark, state, run.body.plan, run.body.track, run.body.trial);
    run.mark = done.mark;
    run.body.trial = done.trial;
    replies::asks_for(done.question, 0)
}

// The open step is made, and the next one is open.
pub fn step_on(
    run: &mut Run,
    mark: Mark,
    state: State,
    steps: u64,
    a: Triple,
    from: u64,
    out: &mut [f64],
) -> Reply
    ensures { (result ≡ stepped_reply (made_step mark state steps run.old.body.plan run.old.body.track run.old.body.a a))
        × (run.new ≡ stepped_run run.old (made_step mark state steps run.old.body.plan run.old.body.track run.old.body.a a))
        × (out.new ≡ kept_step state steps run.old.body.plan run.old.body.track run.old.body.a a from out.old) }
{
    let done = fastpath::make_step(
        mark,
        state,
        steps,
        run.body.plan,
        run.body.track,
        run.body.a,
        a,
        from,
        out,
    );
    run.mark = done.mark;
    let window = done.a;
    run.body.a = window;
    run.body.track = done.track;
    run.body.trial = done.trial;
    replies::asks_for(done.question, done.stored)
}

// Any answer, the plain way.
pub fn answer_plainly(run: &mut Run, number: u16, a: Triple, from: u64, out: &mut [f64]) -> Reply
    ensures { (result ≡ answer_reply (answered run.old number a (tens from out.old)).got)
        × (run.new ≡ (answered run.old number a (tens from out.old)).got.run)
        × (out.new ≡ numbers_of (answered run.old number a (tens from out.old)).out) }
{
    let done = gauss_jackson::answer(*run, number, a, from, out);
    *run = done.run;
    Reply::from(done)
}
