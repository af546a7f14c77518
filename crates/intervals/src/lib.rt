// SPDX-License-Identifier: MIT OR Apache-2.0
// Which interval a time falls into. The two interpolations have rules of their own (01, "Between samples").
#![tactic(auto)]

ghost use Rattle.std.specs.Prelude.{◌≡◌, ◌-◌};
ghost use Rattle.intervals.specs.Table.{count_of};
ghost use Rattle.intervals.specs.Intervals.{is_forward, last_time, ends_of, reached, is_short, first_past, interval_of, walked_to};

pub mod table;

// The earliest and the latest time that a table can tell of.
#[derive(Clone, Copy)]
pub struct Ends {
    pub lower: f64,
    pub upper: f64,
}

fn last_time(samples: &[f64]) -> f64
    ensures { result ≡ last_time samples.now }
{
    table::time_of(samples, table::count_of(samples).saturating_sub(1))
}

fn is_forward(samples: &[f64]) -> bool
    ensures { result ≡ is_forward samples.now }
{
    last_time(samples) > table::time_of(samples, 0)
}

pub fn ends_of(samples: &[f64]) -> Ends
    ensures { result ≡ ends_of samples.now }
{
    let first = table::time_of(samples, 0);
    let last = last_time(samples);
    if is_forward(samples) {
        return Ends {
            lower: first,
            upper: last,
        };
    }
    Ends {
        lower: last,
        upper: first,
    }
}

// The number of the last interval.
fn last_interval(samples: &[f64]) -> usize
    ensures { result ≡ count_of samples.now - 2 }
{
    table::count_of(samples).saturating_sub(2)
}

// Which samples lie before a single time, or at it. The direction is a truth, as in the definitions; the search, which goes over a whole table, has
// a loop for each.
#[tactic(auto, unfolding(crate::specs::Intervals::reached))]
fn is_reached(forward: bool, time: f64, t: f64) -> bool
    ensures { result ≡ reached forward time t }
{
    if forward { time <= t } else { time >= t }
}

// Which samples a batch's time lies past.
#[tactic(auto, unfolding(crate::specs::Intervals::is_short))]
fn is_short(forward: bool, time: f64, t: f64) -> bool
    ensures { result ≡ is_short forward time t }
{
    if forward { time < t } else { time > t }
}

// The first sample that is not reached, or the count where all are. One after the other, since a table may stand in any order. Each direction
// has a loop of its own, which does not ask for it.
fn search<const FORWARD: bool>(samples: &[f64], t: f64) -> usize
    ensures { result ≡ first_past FORWARD samples.now t (count_of samples.now) 0 }
{
    let count = table::count_of(samples);
    for n in 0..count {
        if !is_reached(FORWARD, table::time_of(samples, n), t) {
            return n;
        }
    }
    count
}

fn first_past(forward: bool, samples: &[f64], t: f64) -> usize
    ensures { result ≡ first_past forward samples.now t (count_of samples.now) 0 }
{
    if forward {
        search::<true>(samples, t)
    } else {
        search::<false>(samples, t)
    }
}

// The interval of a single time.
pub fn interval_of(samples: &[f64], t: f64) -> usize
    ensures { result ≡ interval_of samples.now t }
{
    let before = first_past(is_forward(samples), samples, t).saturating_sub(1);
    let last = last_interval(samples);
    before.min(last)
}

// The interval of a batch's next time, when the walk stands at interval k: never one before.
pub fn walk_on(samples: &[f64], t: f64, k: usize) -> usize
    ensures { result ≡ walked_to samples.now t k }
{
    let forward = is_forward(samples);
    let last = last_interval(samples);
    for at in k..last {
        if !is_short(forward, table::time_of(samples, at + 1), t) {
            return at;
        }
    }
    k.max(last)
}
