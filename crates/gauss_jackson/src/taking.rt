// SPDX-License-Identifier: MIT OR Apache-2.0
// What an accepted answer leads to at each waiting point, the one plain way. `count` counts the answers up to this one; it and
// the body stay apart, since the definitions of `Answers.antt` change the one and count on by the other.
ghost use Rattle.std.specs.Prelude.{◌≡◌, ◌<◌, ◌≤◌};
ghost use Rattle.plan.specs.Limits.{max_passes};
ghost use Rattle.run.specs.Limits.{ample};
ghost use Rattle.run.specs.Moves.{kept};
ghost use Rattle.run.specs.Ready.{Ready};
ghost use Rattle.run.specs.Rooms.{room_of};
ghost use Rattle.gauss_jackson.specs.Answers.{Gives, asking, onward, startup_ended, step_ended, passes_on, pass_ended, rk4_taken, forward_ended, backward_ended, tail_ended, survey_taken, pass_taken, step_taken, last_taken, answered_at};

use crate::{Answered, Outcome, advance, outcomes};
use plan::limits;
use refusals::Refusal;
use run::samples::Room;
use run::waiting::{Stage, Waiting};
use run::{Body, Count, moves, samples};
use startup::passes;
use triple::Triple;

// The head of the loop: a further step, the tail, the end, or refusal 2.
#[tactic(auto, unfolding(crate::specs::Answers::onward))]
fn onward(count: Count, b: Body) -> Answered
    ensures { result ≡ onward count b }
{
    let track = b.track;
    if !conditions::is_due(b.plan, track.t) {
        return outcomes::end(outcomes::solution_of(track.t, track.state, count, track.steps, b));
    }
    if track.steps >= b.plan.settings.max_steps {
        return outcomes::end(Outcome::Refused(Refusal::MaxStepsExceeded));
    }
    if conditions::is_tail(b.plan, track.t) {
        return outcomes::ask(Waiting::Tail(Stage::First), count, b);
    }
    outcomes::ask(Waiting::Step(0), count, moves::predict(b))
}

// The startup is done: its five samples, if wanted, then the loop.
#[tactic(auto, unfolding(crate::specs::Answers::startup_ended))]
fn end_startup(count: Count, b: Body, room: &mut Room) -> Answered
    ensures { Gives (startup_ended count b (room_of room.old)) result room.old room.new }
{
    let wanted = limits::wants_samples(b.plan.settings);
    if !room.has_place(wanted, 0, 5) {
        return outcomes::end(Outcome::Refused(Refusal::SampleRoom));
    }
    room.keep_points(wanted, b);
    outcomes::tell_stored(wanted, 5, onward(count, moves::launch(b)))
}

// A step is made: its sample, if wanted, then the loop.
#[tactic(auto, unfolding(crate::specs::Answers::step_ended))]
fn end_step(count: Count, b: Body, room: &mut Room) -> Answered
    ensures { Gives (step_ended count b (room_of room.old)) result room.old room.new }
{
    let wanted = limits::wants_samples(b.plan.settings);
    if !room.has_place(wanted, b.track.steps, 1) {
        return outcomes::end(Outcome::Refused(Refusal::SampleRoom));
    }
    room.keep_sample(wanted, b.track.steps, samples::step_sample(b.track, b.a));
    outcomes::tell_stored(wanted, 1, onward(count, b))
}

// The head of the startup passes.
#[tactic(auto, unfolding(crate::specs::Answers::passes_on))]
fn passes_on(count: Count, b: Body, room: &mut Room) -> Answered
    ensures { Gives (passes_on count b (room_of room.old)) result room.old room.new }
{
    if b.startup_iters < b.plan.settings.max_startup_iters {
        return outcomes::ask(Waiting::Pass(0), count, moves::begin_pass(b));
    }
    end_startup(count, b, room)
}

// A startup pass has all its accelerations.
#[tactic(auto, unfolding(crate::specs::Answers::pass_ended))]
fn end_pass(count: Count, b: Body, room: &mut Room) -> Answered
    requires { b.startup_iters < ample }
    ensures { Gives (pass_ended count b (room_of room.old)) result room.old room.new }
{
    let next = advance::end_pass(b);
    if passes::is_settled(b.plan.settings.startup_tol, b.widest) {
        return end_startup(count, next, room);
    }
    passes_on(count, next, room)
}

// An RK4 step has one acceleration more, and its next question stands at w.
fn keep_on(w: Waiting, s: Stage, count: Count, b: Body, a: Triple) -> Answered
    ensures { result ≡ asking w count (kept s b a) }
{
    outcomes::ask(w, count, moves::keep(s, b, a))
}

// Forward and back stay two functions: each number in them differs, and so does what follows the last point.
#[tactic(auto, unfolding(crate::specs::Answers::rk4_taken, crate::specs::Answers::forward_ended, run::specs::Moves::moved_on))]
fn take_forward(i: u8, s: Stage, count: Count, b: Body, a: Triple) -> Answered
    requires { i < 8 }
    ensures { result ≡ rk4_taken (λ (t : Stage). Waiting.Forward i t) s count b a (forward_ended i count b a) }
{
    if !s.is_last() {
        return keep_on(Waiting::Forward(i, s.after()), s, count, b, a);
    }
    let next = moves::move_to(i, i + 1, b.plan.h, b, a);
    if i < 7 {
        return outcomes::ask(Waiting::Forward(i + 1, Stage::First), count, next);
    }
    outcomes::ask(Waiting::Backward(4, Stage::First), count, next)
}

#[tactic(auto, unfolding(crate::specs::Answers::rk4_taken, crate::specs::Answers::backward_ended, run::specs::Moves::moved_back))]
fn take_backward(i: u8, s: Stage, count: Count, b: Body, a: Triple) -> Answered
    requires { 0 < i }
    ensures { result ≡ rk4_taken (λ (t : Stage). Waiting.Backward i t) s count b a (backward_ended i count b a) }
{
    if !s.is_last() {
        return keep_on(Waiting::Backward(i, s.after()), s, count, b, a);
    }
    let next = moves::move_to(i, i - 1, -b.plan.h, b, a);
    if i > 1 {
        return outcomes::ask(Waiting::Backward(i - 1, Stage::First), count, next);
    }
    outcomes::ask(Waiting::Survey(0), count, next)
}

#[tactic(auto, unfolding(crate::specs::Answers::survey_taken))]
fn take_survey(i: u8, count: Count, b: Body, a: Triple, room: &mut Room) -> Answered
    ensures { Gives (survey_taken i count b a (room_of room.old)) result room.old room.new }
{
    let next = moves::survey(i, b, a);
    if i < 8 {
        return outcomes::ask(Waiting::Survey(advance::point_after(i)), count, next);
    }
    passes_on(count, next, room)
}

#[tactic(auto, unfolding(crate::specs::Answers::pass_taken))]
fn take_pass(i: u8, count: Count, b: Body, a: Triple, room: &mut Room) -> Answered
    requires { b.startup_iters < ample }
    ensures { Gives (pass_taken i count b a (room_of room.old)) result room.old room.new }
{
    let next = moves::renew(i, b, a);
    if i < 8 {
        return outcomes::ask(Waiting::Pass(advance::point_after(i)), count, next);
    }
    end_pass(count, next, room)
}

// An answer at a step's end, after n corrector passes.
#[tactic(auto, unfolding(crate::specs::Answers::step_taken))]
fn take_step(n: u8, count: Count, b: Body, a: Triple, room: &mut Room) -> Answered
    requires { (b.plan.settings.max_corrector_iters ≤ max_passes) × (b.track.steps < ample) }
    ensures { Gives (step_taken n count b a (room_of room.old)) result room.old room.new }
{
    let before = b.trial.state;
    if u64::from(n) >= b.plan.settings.max_corrector_iters {
        return end_step(count, advance::commit(b, before, a), room);
    }
    let after = sums::corrected(b.plan.h, b.track.sums, b.trial.fixed, a);
    if conditions::is_at_rest(b.plan.settings.corrector_tol, before, after) {
        return end_step(count, advance::commit(b, after, a), room);
    }
    outcomes::ask(Waiting::Step(n + 1), count, moves::try_state(b, after))
}

#[tactic(auto, unfolding(crate::specs::Answers::rk4_taken, crate::specs::Answers::tail_ended))]
fn take_tail(s: Stage, count: Count, b: Body, a: Triple) -> Answered
    requires { b.track.steps < ample }
    ensures { result ≡ rk4_taken (λ (t : Stage). Waiting.Tail t) s count b a (tail_ended count b a) }
{
    if !s.is_last() {
        return keep_on(Waiting::Tail(s.after()), s, count, b, a);
    }
    let end_state = moves::end_of_tail(b, a);
    if limits::wants_samples(b.plan.settings) {
        return outcomes::ask(Waiting::TailSample, count, moves::try_state(b, end_state));
    }
    outcomes::end(outcomes::solution_of(b.plan.tf, end_state, count, b.track.steps + 1, b))
}

// The tail's sample has its acceleration.
#[tactic(auto, unfolding(crate::specs::Answers::last_taken))]
fn take_last(count: Count, b: Body, a: Triple, room: &mut Room) -> Answered
    requires { b.track.steps < ample }
    ensures { Gives (last_taken count b a (room_of room.old)) result room.old room.new }
{
    let n = b.track.steps + 1;
    let wanted = limits::wants_samples(b.plan.settings);
    if !room.has_place(wanted, n, 1) {
        return outcomes::end(Outcome::Refused(Refusal::SampleRoom));
    }
    room.keep_sample(wanted, n, samples::last_sample(b, a));
    let done = outcomes::end(outcomes::solution_of(b.plan.tf, b.trial.state, count, n, b));
    outcomes::tell_stored(wanted, 1, done)
}

// The right answer at waiting point w of a sound run.
#[tactic(auto, unfolding(crate::specs::Answers::answered_at))]
pub fn take(w: Waiting, count: Count, b: Body, a: Triple, room: &mut Room) -> Answered
    requires { Ready w b }
    ensures { Gives (answered_at w count b a (room_of room.old)) result room.old room.new }
{
    match w {
        Waiting::Epoch => outcomes::ask(
            Waiting::Forward(4, Stage::First),
            count,
            moves::survey(4, b, a),
        ),
        Waiting::Forward(i, s) => take_forward(i, s, count, b, a),
        Waiting::Backward(i, s) => take_backward(i, s, count, b, a),
        Waiting::Survey(i) => take_survey(i, count, b, a, room),
        Waiting::Pass(i) => take_pass(i, count, b, a, room),
        Waiting::Step(n) => take_step(n, count, b, a, room),
        Waiting::Tail(s) => take_tail(s, count, b, a),
        Waiting::TailSample => take_last(count, b, a, room),
        Waiting::Ended | Waiting::Unknown => outcomes::end(Outcome::Refused(Refusal::NoQuestion)),
    }
}
