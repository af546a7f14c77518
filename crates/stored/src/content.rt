// SPDX-License-Identifier: MIT OR Apache-2.0
// A run as 504 words of content.
ghost use Rattle.std.specs.Prelude.{◌≡◌, true, cond, ℕ, ◌-◌};
ghost use Rattle.run.specs.Sound.{is_sound};
ghost use Rattle.std.specs.Float.{binary64};
ghost use Rattle.std.specs.Float.Ieee.{to_bits};
ghost use Rattle.blocks.specs.Rows.{filled_from};
ghost use Rattle.stored.specs.Content.{head_of, counts_in, half, float_word, content_from, content_of_run};

use crate::layout::Uses;
use crate::{layout, triples};
use run::{Mark, Run, waiting};
use triple::Triple;

// A bool beside the number, here and below: an `Option` of the two would be made only to be taken apart at once.
fn kept(used: bool, n: u8) -> u32
    ensures { result ≡ cond used n 0 }
{
    if used { u32::from(n) } else { 0 }
}

// Form, waiting point, index, stage, question number, flag.
fn head_of(mark: Mark, u: Uses, samples: u8) -> [u32; 6]
    ensures { result ≡ head_of mark u samples }
{
    [
        1,
        u32::from(mark.at),
        kept(u.index, mark.index),
        kept(u.stage, mark.stage),
        u32::from(mark.count.number),
        u32::from(samples),
    ]
}

// The counts, each in four bytes: a sound run has none that is larger.
fn counts_in(run: Run) -> [u32; 6]
    requires { is_sound run ≡ true }
    ensures { result ≡ counts_in run }
{
    [
        run.body.plan.settings.max_corrector_iters as u32,
        run.body.plan.settings.max_startup_iters as u32,
        run.body.plan.settings.max_steps as u32,
        run.body.startup_iters as u32,
        run.body.track.steps as u32,
        run.mark.count.evals as u32,
    ]
}

// What is stored of a float: its bits, or nothing where it is not used.
fn stored_bits(used: bool, x: f64) -> u64
    ensures { result ≡ cond used (to_bits binary64 x) 0 }
{
    if used { bits::bits_of(x) } else { 0 }
}

// The halves of a pattern. By `%` and `/`, since `as` may not drop bits and the library has no word for it.
fn lower(bits: u64) -> u32
    ensures { result ≡ half bits 0 }
{
    (bits % 0x1_0000_0000) as u32
}

fn upper(bits: u64) -> u32
    ensures { result ≡ half bits 1 }
{
    (bits / 0x1_0000_0000) as u32
}

// Each float takes two words, the lower first.
fn put_floats(u: Uses, floats: [Triple; 41], content: &mut [u32; 504])
    ensures { content.new ≡ filled_from (λ (j : ℕ). float_word u floats (j - 6)) 6 246 content.old }
{
    for (q, t) in floats.iter().enumerate() {
        let x = stored_bits(layout::is_used(u, 3 * q), t.x);
        let y = stored_bits(layout::is_used(u, 3 * q + 1), t.y);
        let z = stored_bits(layout::is_used(u, 3 * q + 2), t.z);
        content[6 * q + 6] = lower(x);
        content[6 * q + 7] = upper(x);
        content[6 * q + 8] = lower(y);
        content[6 * q + 9] = upper(y);
        content[6 * q + 10] = lower(z);
        content[6 * q + 11] = upper(z);
    }
}

// The words by parts: the head, the floats and the counts. The rest stays zero.
fn content_from(head: [u32; 6], u: Uses, floats: [Triple; 41], counts: [u32; 6]) -> [u32; 504]
    ensures { result ≡ content_from head u floats counts }
{
    let mut content = [0u32; 504];
    content[..6].copy_from_slice(&head);
    put_floats(u, floats, &mut content);
    content[252..258].copy_from_slice(&counts);
    content
}

pub fn content_of_run(run: Run) -> [u32; 504]
    requires { is_sound run ≡ true }
    ensures { result ≡ content_of_run run }
{
    let u = layout::uses_of(waiting::waits_at(run.mark));
    let head = head_of(run.mark, u, run.body.plan.settings.samples);
    let floats = triples::triples_of(run.body);
    let counts = counts_in(run);
    content_from(head, u, floats, counts)
}
