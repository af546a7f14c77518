// SPDX-License-Identifier: MIT OR Apache-2.0
// What a call gives, in plain numbers.
ghost use Rattle.std.specs.Prelude.{◌≡◌};
ghost use Rattle.app.specs.Reply.{asks_for, finished_at, refused_by, reply_of, answer_reply, cost_reply_of, whole_reply_of};

use crate::{CostReply, Reply, WholeReply};
use gauss_jackson::{Answered, Outcome, Question, Solution};
use profile::{Cost, WholeTold};
use refusals::Refusal;
use triple::Triple;

#[tactic(auto, unfolding(crate::specs::Reply::asks_for))]
pub fn asks_for(question: Question, stored: u64) -> Reply
    ensures { result ≡ asks_for question stored }
{
    Reply {
        t: question.t,
        r: question.r,
        v: question.v,
        evals: 0,
        steps: 0,
        startup_iters: 0,
        stored,
        kind: 0,
        refusal: 0,
        number: question.number,
    }
}

#[tactic(auto, unfolding(crate::specs::Reply::finished_at))]
fn finished_at(solution: Solution, stored: u64) -> Reply
    ensures { result ≡ finished_at solution stored }
{
    Reply {
        t: solution.t,
        r: solution.r,
        v: solution.v,
        evals: solution.evals,
        steps: solution.steps,
        startup_iters: solution.startup_iters,
        stored,
        kind: 1,
        refusal: 0,
        number: 0,
    }
}

#[tactic(auto, unfolding(crate::specs::Reply::refused_by))]
fn refused_by(refusal: Refusal, stored: u64) -> Reply
    ensures { result ≡ refused_by refusal stored }
{
    Reply {
        t: 0.0,
        r: Triple::zero(),
        v: Triple::zero(),
        evals: 0,
        steps: 0,
        startup_iters: 0,
        stored,
        kind: 2,
        refusal: u16::from(u8::from(refusal)),
        number: 0,
    }
}

// Of an outcome and a count, which come together only where a call stores samples: so no `From` of one value.
#[tactic(auto, unfolding(crate::specs::Reply::reply_of))]
pub fn reply_of(outcome: Outcome, stored: u64) -> Reply
    ensures { result ≡ reply_of outcome stored }
{
    match outcome {
        Outcome::Ask(question) => asks_for(question, stored),
        Outcome::Done(solution) => finished_at(solution, stored),
        Outcome::Refused(refusal) => refused_by(refusal, stored),
    }
}

// What a call gave, without the run to go on with.
impl From<Answered> for Reply {
    ghost from_gives = { λ d reply. reply ≡ answer_reply d };

    fn from(done: Answered) -> Reply {
        reply_of(done.outcome, done.stored)
    }
}

impl From<Result<Cost, Refusal>> for CostReply {
    ghost from_gives = { λ forecast reply. reply ≡ cost_reply_of forecast };

    #[tactic(auto, unfolding(crate::specs::Reply::cost_reply_of))]
    fn from(forecast: Result<Cost, Refusal>) -> CostReply {
        match forecast {
            Ok(cost) => CostReply { cost, refusal: 0 },
            Err(refusal) => CostReply {
                cost: profile::no_cost(),
                refusal: u32::from(u8::from(refusal)),
            },
        }
    }
}

impl From<WholeTold> for WholeReply {
    ghost from_gives = { λ told reply. reply ≡ whole_reply_of told };

    #[tactic(auto, unfolding(crate::specs::Reply::whole_reply_of))]
    fn from(told: WholeTold) -> WholeReply {
        WholeReply {
            reply: reply_of(told.outcome, 0),
            cost: told.cost,
        }
    }
}
