// SPDX-License-Identifier: MIT OR Apache-2.0
// A run from 504 words of content, and whether they are one. The words and the uses go beside one another: a record of the
// two would be made in one function and taken apart in each of the others.
ghost use Rattle.std.specs.Prelude.{◌≡◌, true, ◌<◌};
ghost use Rattle.run.specs.Waiting.{waits_at};
ghost use Rattle.stored.specs.Layout.{uses_of};
ghost use Rattle.stored.specs.Taken.{float_at, triple_at, triples_in, counts_at, is_known, run_of, still_zero, unused_is_zero};
ghost use Rattle.stored.specs.Unused.{six_zero, middle_zero};

use crate::layout::Uses;
use crate::{layout, triples};
use run::{Count, Mark, Run, waiting};
use triple::Triple;

// Float k.
fn float_at(content: &[u32; 504], k: usize) -> f64
    requires { k < 123 }
    ensures { result ≡ float_at content.now k }
{
    let at = 6 + 2 * k;
    bits::float_of(u64::from(content[at]) + 0x1_0000_0000 * u64::from(content[at + 1]))
}

fn triple_at(content: &[u32; 504], q: usize) -> Triple
    requires { q < 41 }
    ensures { result ≡ triple_at content.now q }
{
    Triple {
        x: float_at(content, 3 * q),
        y: float_at(content, 3 * q + 1),
        z: float_at(content, 3 * q + 2),
    }
}

fn triples_in(content: &[u32; 504]) -> [Triple; 41]
    ensures { result ≡ triples_in content.now }
{
    let mut floats = [Triple::zero(); 41];
    for (q, t) in floats.iter_mut().enumerate() {
        *t = triple_at(content, q);
    }
    floats
}

fn counts_at(c: &[u32; 504]) -> [u64; 6]
    ensures { result ≡ counts_at c.now }
{
    [
        u64::from(c[252]),
        u64::from(c[253]),
        u64::from(c[254]),
        u64::from(c[255]),
        u64::from(c[256]),
        u64::from(c[257]),
    ]
}

// Form 1, a waiting point that there is, a flag of 0 or 1; and no number that its place in a run could not hold.
pub fn is_known(c: &[u32; 504]) -> bool
    ensures { result ≡ is_known c.now }
{
    (c[0] == 1)
        & (1 <= c[1])
        & (c[1] <= 8)
        & (c[2] <= 255)
        & (c[3] <= 255)
        & (c[4] <= 65535)
        & (c[5] <= 1)
}

// The run of a content whose head is known.
pub fn run_of(c: &[u32; 504]) -> Run
    requires { is_known c.now ≡ true }
    ensures { result ≡ run_of c.now }
{
    let counts = counts_at(c);
    let mark = Mark {
        at: c[1] as u8,
        index: c[2] as u8,
        stage: c[3] as u8,
        count: Count {
            number: c[4] as u16,
            evals: counts[5],
        },
    };
    let body = triples::body_from(triples_in(c), counts, c[5] as u8);
    Run { mark, body }
}

// Without a branch: a form has 504 words.
fn still_zero(zero: bool, used: bool, word: u32) -> bool
    ensures { result ≡ still_zero zero used word }
{
    zero & (used | (word == 0))
}

// Of the head, the index and the stage may be unused.
fn is_head_zero(c: &[u32; 504], u: Uses) -> bool
    ensures { result ≡ unused_is_zero c.now u 6 }
{
    let index = still_zero(true, u.index, c[2]);
    still_zero(index, u.stage, c[3])
}

// The six words from word j on.
fn are_six_zero(c: &[u32; 504], j: usize, used: bool, zero: bool) -> bool
    requires { j < 498 }
    ensures { result ≡ six_zero c.now j used zero }
{
    let one = still_zero(zero, used, c[j]);
    let two = still_zero(one, used, c[j + 1]);
    let three = still_zero(two, used, c[j + 2]);
    let four = still_zero(three, used, c[j + 3]);
    let five = still_zero(four, used, c[j + 4]);
    still_zero(five, used, c[j + 5])
}

// Triple 38: the largest change and acceleration, and the clock.
fn is_middle_zero(c: &[u32; 504], u: Uses, zero: bool) -> bool
    ensures { result ≡ middle_zero c.now u zero }
{
    let one = still_zero(zero, u.widest, c[234]);
    let two = still_zero(one, u.widest, c[235]);
    let three = still_zero(two, u.widest, c[236]);
    let four = still_zero(three, u.widest, c[237]);
    let five = still_zero(four, u.clock, c[238]);
    still_zero(five, u.clock, c[239])
}

// Triple after triple; the last two are always used.
fn are_floats_zero(c: &[u32; 504], u: Uses) -> bool
    ensures { result ≡ unused_is_zero c.now u 252 }
{
    let mut zero = is_head_zero(c, u);
    for q in 0..38 {
        zero = are_six_zero(c, 6 * q + 6, layout::triple_used(u, q), zero);
    }
    is_middle_zero(c, u, zero)
}

// What a waiting point does not use is zero. The counts are always used, and no word after them is.
pub fn is_unused_zero(c: &[u32; 504], mark: Mark) -> bool
    ensures { result ≡ unused_is_zero c.now (uses_of (waits_at mark)) 504 }
{
    let u = layout::uses_of(waiting::waits_at(mark));
    let mut zero = are_floats_zero(c, u);
    for word in &c[258..] {
        zero = still_zero(zero, false, *word);
    }
    zero
}
