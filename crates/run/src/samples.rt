// SPDX-License-Identifier: MIT OR Apache-2.0
// Samples: which there are, and where each goes in the lent room, whose first ten numbers are those of sample `from`. Ten numbers each, and
// never one without its place.
ghost use Rattle.std.specs.Prelude.{◌≡◌, ◌+◌, ◌≤◌, length};
ghost use Rattle.triple.specs.Sampled.{sample_width};
ghost use Rattle.run.specs.Rooms.{Leaves};
ghost use Rattle.run.specs.Samples.{tens, is_placed, has_place, written, kept_sample, grid_sample, kept_point, kept_points, step_sample, last_sample};

use crate::{Body, Track, questions};
use triple::{SAMPLE_WIDTH, Sample, Triple, nine};

// The room that a call lends: the sample that it begins at, and its numbers. The functions by parts are for `fastpath` and `flight`, which
// ask before a room is at hand.
#[derive(Drop)]
pub struct Room<'a> {
    pub from: u64,
    pub numbers: &'a mut [f64],
}

// Whether samples n to n + m - 1 have their place among so many numbers: by a quotient, since a product could wrap.
fn is_placed(from: u64, n: u64, m: u64, room: usize) -> bool
    ensures { result ≡ is_placed from n m room }
{
    let places = (room / SAMPLE_WIDTH) as u64;
    if n < from || places < m {
        return false;
    }
    n - from <= places - m
}

// The same, if samples are wanted.
#[tactic(auto, unfolding(crate::specs::Samples::has_place))]
pub fn has_place(wanted: bool, from: u64, n: u64, m: u64, room: usize) -> bool
    ensures { result ≡ has_place wanted from n m room }
{
    !wanted || is_placed(from, n, m, room)
}

// A sample's ten numbers from place i on.
#[tactic(auto, unfolding(crate::specs::Samples::written))]
fn write(i: usize, s: Sample, out: &mut [f64])
    requires { i + sample_width ≤ length out.old }
    ensures { out.new ≡ written i s out.old }
{
    out[i] = s.t;
    out[i + 1] = s.r.x;
    out[i + 2] = s.r.y;
    out[i + 3] = s.r.z;
    out[i + 4] = s.v.x;
    out[i + 5] = s.v.y;
    out[i + 6] = s.v.z;
    out[i + 7] = s.a.x;
    out[i + 8] = s.a.y;
    out[i + 9] = s.a.z;
}

// Sample n at 10(n - from) and the nine numbers after it, where samples are wanted and it has its place there.
#[tactic(auto, unfolding(crate::specs::Samples::kept_sample))]
pub fn keep_sample(wanted: bool, from: u64, n: u64, s: Sample, out: &mut [f64])
    ensures { out.new ≡ kept_sample wanted from n s out.old }
{
    if wanted && is_placed(from, n, 1, out.len()) {
        write(SAMPLE_WIDTH * ((n - from) as usize), s, out);
    }
}

// Point i of the startup.
#[tactic(auto, unfolding(crate::specs::Samples::grid_sample, crate::specs::Questions::grid_point, startup::specs::Points::point_at))]
fn grid_sample(b: Body, i: u8) -> Sample
    ensures { result ≡ grid_sample b.plan b.places b.a i }
{
    questions::grid_point(b, i).with(nine::element(b.a, usize::from(i)))
}

// Whether samples are wanted is not the room's to know: the plan says it. It stays a truth: it decides only whether there is a sample to place.
impl Room<'_> {
    pub fn has_place(&self, wanted: bool, n: u64, m: u64) -> bool
        ensures { result ≡ has_place wanted self.now.from n m (length self.now.numbers.now) }
    {
        has_place(wanted, self.from, n, m, self.numbers.len())
    }

    pub fn keep_sample(&mut self, wanted: bool, n: u64, s: Sample)
        ensures { Leaves self.old self.new (tens self.old.from (kept_sample wanted self.old.from n s self.old.numbers.now)) }
    {
        keep_sample(wanted, self.from, n, s, self.numbers);
    }

    // Point i of the startup, from 4 on, as sample i - 4.
    #[tactic(auto, unfolding(crate::specs::Samples::kept_point))]
    fn keep_point(&mut self, wanted: bool, b: Body, i: u8)
        requires { 4 ≤ i }
        ensures { Leaves self.old self.new (tens self.old.from (kept_point wanted self.old.from b.plan b.places b.a i self.old.numbers.now)) }
    {
        self.keep_sample(wanted, u64::from(i - 4), grid_sample(b, i));
    }

    // Points 4 to 8 of the startup, as samples 0 to 4.
    #[tactic(auto, unfolding(crate::specs::Samples::kept_points))]
    pub fn keep_points(&mut self, wanted: bool, b: Body)
        ensures { Leaves self.old self.new (tens self.old.from (kept_points wanted self.old.from b.plan b.places b.a self.old.numbers.now)) }
    {
        self.keep_point(wanted, b, 4);
        self.keep_point(wanted, b, 5);
        self.keep_point(wanted, b, 6);
        self.keep_point(wanted, b, 7);
        self.keep_point(wanted, b, 8);
    }
}

// The newest point, with the newest of the accelerations.
#[tactic(auto, unfolding(crate::specs::Samples::step_sample))]
pub fn step_sample(track: Track, window: [Triple; 9]) -> Sample
    ensures { result ≡ step_sample track window }
{
    track.state.at(track.t).with(nine::element(window, 8))
}

// The end of the tail, with its acceleration.
#[tactic(auto, unfolding(crate::specs::Samples::last_sample))]
pub fn last_sample(b: Body, a: Triple) -> Sample
    ensures { result ≡ last_sample b.plan b.trial.state a }
{
    b.trial.state.at(b.plan.tf).with(a)
}
