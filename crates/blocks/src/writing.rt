// SPDX-License-Identifier: MIT OR Apache-2.0
// Content into bytes, word after word: each word is looked up once, written, and added to its block's check.
ghost use Rattle.std.specs.Prelude.{◌≡◌, ◌+◌, ◌*◌, ◌<◌};
ghost use Rattle.blocks.specs.Words.{put_word, put_words};
ghost use Rattle.blocks.specs.Blocks.{block_word, check, form_word, form};

// Word i of the form, as its four bytes.
fn put_word(out: &mut [u8; 2048], i: usize, w: u32)
    requires { i < 512 }
    ensures { out.new ≡ put_word out.old i w }
{
    let k = 4 * i;
    out[k..k + 4].copy_from_slice(&w.to_le_bytes());
}

// The content of block b, and what its check is.
fn write_content(content: &[u32; 504], b: usize, out: &mut [u8; 2048]) -> u32
    requires { b < 4 }
    ensures value { result ≡ check (block_word content.now b) 127 }
    ensures out_after { out.new ≡ put_words (form_word content.now) (128 * b + 1) 126 out.old }
{
    let mut sum = 1 + b as u32;
    for j in 0..126 {
        let w = content[126 * b + j];
        put_word(out, 128 * b + 1 + j, w);
        sum = sum.wrapping_add(w);
    }
    sum
}

// Block b: its number, its content, its check.
fn write_block(content: &[u32; 504], b: usize, out: &mut [u8; 2048])
    requires { b < 4 }
    ensures { out.new ≡ put_words (form_word content.now) (128 * b) 128 out.old }
{
    put_word(out, 128 * b, b as u32);
    let sum = write_content(content, b, out);
    put_word(out, 128 * b + 127, sum);
}

// The content as a stored form.
pub fn write_form(content: &[u32; 504], out: &mut [u8; 2048])
    ensures { out.new ≡ form content.now }
{
    for b in 0..4 {
        write_block(content, b, out);
    }
}
