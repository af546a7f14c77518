// SPDX-License-Identifier: MIT OR Apache-2.0
// The parts of a flight that an answer of the fast path changes, kept beside the rest, which such an answer neither reads whole nor copies.
ghost use Rattle.std.specs.Prelude.{◌≡◌, ◌<◌};
ghost use Rattle.fastpath.specs.Looking.{looked_at};
ghost use Rattle.fastpath.specs.Moving.{asked_again, made_step, kept_step};
ghost use Rattle.flight.specs.Flight.{beyond};
ghost use Rattle.flight.specs.Parts.{parts_of, together, tried_parts, stepped_parts};

use crate::{Flight, Phase};
use fastpath::Look;
use gauss_jackson::Question;
use plan::Plan;
use run::{Body, Mark, Run, Track, Trial};
use triple::{State, Triple};

#[derive(Clone, Copy)]
pub struct Parts {
    pub mark: Mark,
    pub a: [Triple; 9],
    pub track: Track,
    pub trial: Trial,
    pub question: Question,
    pub next: u64,
}

// Of a flight and its open question.
pub fn parts_of(flight: Flight, question: Question) -> Parts
    ensures { result ≡ parts_of flight question }
{
    let body = flight.run.body;
    let a = body.a;
    Parts {
        mark: flight.run.mark,
        a,
        track: body.track,
        trial: body.trial,
        question,
        next: flight.next,
    }
}

// The flight with these parts in their places.
pub fn together(flight: Flight, parts: Parts) -> Flight
    ensures { result ≡ together flight parts }
{
    let a = parts.a;
    let body = Body {
        a,
        track: parts.track,
        trial: parts.trial,
        ..flight.run.body
    };
    Flight {
        run: Run {
            mark: parts.mark,
            body,
        },
        next: parts.next,
        phase: Phase::Asks(parts.question),
    }
}

// What the answer `a` to the open question leads to, after so many startup passes.
pub fn look(parts: Parts, plan: Plan, passes: u64, a: Triple, from: u64, room: usize) -> Look
    ensures { result ≡ looked_at parts.mark plan parts.track parts.trial passes parts.question.number a from room }
{
    fastpath::look_at(
        parts.mark,
        plan,
        parts.track,
        parts.trial,
        passes,
        parts.question.number,
        a,
        from,
        room,
    )
}

// The open step is tried once more.
pub fn try_again(parts: Parts, mark: Mark, state: State, plan: Plan) -> Parts
    ensures { result ≡ tried_parts parts (asked_again mark state plan parts.track parts.trial) }
{
    let done = fastpath::ask_again(mark, state, plan, parts.track, parts.trial);
    Parts {
        mark: done.mark,
        trial: done.trial,
        question: done.question,
        ..parts
    }
}

// The open step is made, and the next one is open.
pub fn step_on(
    parts: Parts,
    mark: Mark,
    state: State,
    steps: u64,
    plan: Plan,
    x: Triple,
    from: u64,
    out: &mut [f64],
) -> Parts
    requires { parts.next < beyond }
    ensures { (result ≡ stepped_parts parts (made_step mark state steps plan parts.track parts.a x))
        × (out.new ≡ kept_step state steps plan parts.track parts.a x from out.old) }
{
    let done = fastpath::make_step(mark, state, steps, plan, parts.track, parts.a, x, from, out);
    let a = done.a;
    Parts {
        mark: done.mark,
        a,
        track: done.track,
        trial: done.trial,
        question: done.question,
        next: parts.next + done.stored,
    }
}
