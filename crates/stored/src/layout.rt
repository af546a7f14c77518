// SPDX-License-Identifier: MIT OR Apache-2.0
// Which floats of a run a waiting point uses. Where they stand is in `triples`.
ghost use Rattle.std.specs.Prelude.{◌≡◌};
ghost use Rattle.stored.specs.Layout.{nothing_used, up_to_epoch, uses_of, place_used, acceleration_used, triple_used, used};

use run::waiting::Waiting;

// What is used at a waiting point. Of the nine points' places those from `from` to `last`; of the accelerations those from `since` to
// before `until`, but of the fourth `epoch` tells by itself; so many slopes of the open RK4 step.
#[derive(Clone, Copy)]
pub struct Uses {
    pub index: bool,
    pub stage: bool,
    pub from: u8,
    pub last: u8,
    pub since: u8,
    pub until: u8,
    pub epoch: bool,
    pub slopes: u8,
    pub widest: bool,
    pub clock: bool,
    pub state: bool,
    pub sums: bool,
    pub trial: bool,
    pub fixed: bool,
}

// The line of a waiting point that uses nothing.
fn nothing() -> Uses
    ensures { result ≡ nothing_used }
{
    Uses {
        index: false,
        stage: false,
        from: 1,
        last: 0,
        since: 0,
        until: 0,
        epoch: false,
        slopes: 0,
        widest: false,
        clock: false,
        state: false,
        sums: false,
        trial: false,
        fixed: false,
    }
}

// The smaller of i and 4: before the epoch's turn the points from i on are still to be asked, afterwards those from the epoch on are read.
fn up_to_epoch(i: u8) -> u8
    ensures { result ≡ up_to_epoch i }
{
    i.min(4)
}

// The table, a line for each waiting point.
#[tactic(auto, unfolding(crate::specs::Layout::line, crate::specs::Layout::nothing_used, crate::specs::Layout::uses_of))]
pub fn uses_of(w: Waiting) -> Uses
    ensures { result ≡ uses_of w }
{
    let none = nothing();
    match w {
        Waiting::Epoch => Uses {
            from: 4,
            last: 4,
            ..none
        },
        Waiting::Forward(i, s) => Uses {
            index: true,
            stage: true,
            from: 4,
            last: i,
            epoch: true,
            slopes: u8::from(s),
            ..none
        },
        Waiting::Backward(i, s) => Uses {
            index: true,
            stage: true,
            from: i,
            last: 8,
            epoch: true,
            slopes: u8::from(s),
            ..none
        },
        Waiting::Survey(i) => Uses {
            index: true,
            from: up_to_epoch(i),
            last: 8,
            until: i,
            epoch: true,
            ..none
        },
        Waiting::Pass(i) => Uses {
            index: true,
            from: up_to_epoch(i),
            last: 8,
            until: 9,
            epoch: true,
            widest: true,
            ..none
        },
        Waiting::Step(_) => Uses {
            index: true,
            since: 1,
            until: 9,
            epoch: true,
            clock: true,
            sums: true,
            trial: true,
            fixed: true,
            ..none
        },
        Waiting::Tail(s) => Uses {
            stage: true,
            slopes: u8::from(s),
            clock: true,
            state: true,
            ..none
        },
        Waiting::TailSample => Uses {
            trial: true,
            ..none
        },
        Waiting::Ended | Waiting::Unknown => none,
    }
}

fn place_used(u: Uses, i: usize) -> bool
    ensures { result ≡ place_used u i }
{
    usize::from(u.from) <= i && i <= usize::from(u.last)
}

fn acceleration_used(u: Uses, i: usize) -> bool
    ensures { result ≡ acceleration_used u i }
{
    if i == 4 {
        return u.epoch;
    }
    usize::from(u.since) <= i && i < usize::from(u.until)
}

// Whether triple q is used; of triple 38 `is_used` tells.
pub fn triple_used(u: Uses, q: usize) -> bool
    ensures { result ≡ triple_used u q }
{
    if q < 9 {
        return place_used(u, q);
    }
    if q < 18 {
        return place_used(u, q - 9);
    }
    if q < 27 {
        return acceleration_used(u, q - 18);
    }
    if q < 30 {
        return q - 27 < usize::from(u.slopes);
    }
    if q < 32 {
        return u.state;
    }
    if q < 34 {
        return u.sums;
    }
    if q < 36 {
        return u.trial;
    }
    if q < 38 {
        return u.fixed;
    }
    true
}

// Whether float k is used.
pub fn is_used(u: Uses, k: usize) -> bool
    ensures { result ≡ used u k }
{
    if k / 3 == 38 {
        if k < 116 {
            return u.widest;
        }
        return u.clock;
    }
    triple_used(u, k / 3)
}
