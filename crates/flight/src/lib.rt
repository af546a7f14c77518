// SPDX-License-Identifier: MIT OR Apache-2.0
// A run taken to its end by the pull of a point mass (02, W-207): `take_off` starts it, and each `fly_on` answers its questions for a piece,
// with one small room that begins at the next sample. By value, and total: what a flight tells is `specs/Story.antt`.
#![tactic(auto)]

ghost use Rattle.std.specs.Prelude.{◌≡◌, true, ◌<◌};
ghost use Rattle.flight.specs.Flight.{beyond, phase_of, flight_of, taken_off, landed_low, answered_by, is_ready, flown_on};

use fastpath::Look;
use gauss_jackson::{Answered, Outcome, Question};
use plan::Settings;
use point_mass::force;
use refusals::Refusal;
use run::{Run, samples};
use triple::Triple;

mod parts;

// At most so many answers in a piece, so that each call comes back soon.
const PIECE: u64 = 4096;

// Above the number of any sample of a run.
const BEYOND: u64 = 10_000_000_000_000;

// A question is open, or the flight is over, well or by a refusal.
#[derive(Clone, Copy)]
pub enum Phase {
    Asks(Question),
    Over(Result<(), Refusal>),
}

// A run on its way, and the number of the next sample.
#[derive(Clone, Copy)]
pub struct Flight {
    pub run: Run,
    pub next: u64,
    pub phase: Phase,
}

fn phase_of(outcome: Outcome) -> Phase
    ensures { result ≡ phase_of outcome }
{
    match outcome {
        Outcome::Ask(question) => Phase::Asks(question),
        Outcome::Done(_solution) => Phase::Over(Ok(())),
        Outcome::Refused(refusal) => Phase::Over(Err(refusal)),
    }
}

// A flight after a call.
#[tactic(auto, unfolding(crate::specs::Flight::flight_of))]
fn flight_of(next: u64, x: Answered) -> Flight
    ensures { result ≡ flight_of next x }
{
    Flight {
        run: x.run,
        next,
        phase: phase_of(x.outcome),
    }
}

// A start: a flight with its first question, or one that is over by a refusal.
pub fn take_off(settings: Settings, t0: f64, tf: f64, r0: Triple, v0: Triple) -> Flight
    ensures { result ≡ taken_off settings t0 tf r0 v0 }
{
    flight_of(0, gauss_jackson::start(settings, t0, tf, r0, v0))
}

// Whether a question that is open is answered in this piece: the room that begins at `from` must have place for the next five samples.
fn is_ready(from: u64, next: u64, room: usize) -> bool
    ensures { result ≡ is_ready true from next room }
{
    samples::has_place(true, from, next, 5, room) && next < BEYOND
}

// Over, where the open question is too low.
fn land_low(flight: Flight) -> Flight
    ensures { result ≡ landed_low flight }
{
    Flight {
        phase: Phase::Over(Err(Refusal::TooLow)),
        ..flight
    }
}

// One question answered the plain way.
fn answer_plainly(
    flight: Flight,
    question: Question,
    a: Triple,
    from: u64,
    out: &mut [f64],
) -> Flight
    requires { flight.next < beyond }
    ensures { (result ≡ (answered_by question a from flight out.old).flight) × (out.new ≡ (answered_by question a from flight out.old).out) }
{
    let done = gauss_jackson::answer(flight.run, question.number, a, from, out);
    let next = flight.next + done.stored;
    flight_of(next, done)
}

// On by a piece, with one room lent for it, whose first ten numbers are those of sample `flight.next`. The answers that come most often go by
// the parts of the run that they change, so that the run is not copied at each.
pub fn fly_on(flight: Flight, out: &mut [f64]) -> Flight
    ensures { (result ≡ (flown_on flight out.old).flight) × (out.new ≡ (flown_on flight out.old).out) }
{
    let from = flight.next;
    let Phase::Asks(first) = flight.phase else {
        return flight;
    };
    let mut f = flight;
    let mut parts = parts::parts_of(f, first);
    for _ in 0..PIECE {
        if !is_ready(from, parts.next, out.len()) {
            break;
        }
        let Some(a) = force::answer_at(parts.question.r) else {
            return land_low(parts::together(f, parts));
        };
        let body = &f.run.body;
        match parts::look(parts, body.plan, body.startup_iters, a, from, out.len()) {
            // The fast ways `continue`: joined with the plain one at the loop's end, all parts would be moved at each answer, 8 % of a forecast.
            Look::Again { mark, state } => {
                parts = parts::try_again(parts, mark, state, body.plan);
                continue;
            },
            Look::On { mark, state, steps } => {
                parts = parts::step_on(parts, mark, state, steps, body.plan, a, from, out);
                continue;
            },
            Look::Away { .. } => {
                f = answer_plainly(parts::together(f, parts), parts.question, a, from, out);
                let Phase::Asks(question) = f.phase else {
                    return f;
                };
                parts = parts::parts_of(f, question);
            },
        }
    }
    parts::together(f, parts)
}
