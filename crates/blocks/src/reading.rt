// SPDX-License-Identifier: MIT OR Apache-2.0
// Bytes into content, word after word: each word is looked up once, kept, and added to its block's check. A block's number stays a number with its
// bound, here and in `writing`: a type of four values would be made into one again at each place in the bytes.
ghost use Rattle.std.specs.Prelude.{◌≡◌, ℕ, ◌+◌, ◌*◌, ◌<◌};
ghost use Rattle.blocks.specs.Rows.{filled, filled_from};
ghost use Rattle.blocks.specs.Blocks.{word_at, check, block_is_whole, content_at, is_whole};

// Word i of a stored form.
fn word_at(bytes: &[u8; 2048], i: usize) -> u32
    requires { i < 512 }
    ensures { result ≡ word_at bytes.now i }
{
    let k = 4 * i;
    u32::from_le_bytes([bytes[k], bytes[k + 1], bytes[k + 2], bytes[k + 3]])
}

// The content of block b, and the check that the block's words call for.
fn read_content(bytes: &[u8; 2048], b: usize, content: &mut [u32; 504]) -> u32
    requires { b < 4 }
    ensures value { result ≡ check (λ (j : ℕ). word_at bytes.now (128 * b + j)) 127 }
    ensures content_after { content.new ≡ filled_from (content_at bytes.now) (126 * b) 126 content.old }
{
    let mut sum = 1u32.wrapping_add(word_at(bytes, 128 * b));
    for j in 0..126 {
        let w = word_at(bytes, 128 * b + 1 + j);
        content[126 * b + j] = w;
        sum = sum.wrapping_add(w);
    }
    sum
}

// Whether block b has its number and its check; its content is taken either way, as the clause `content_after` says: so the answer is no Option.
fn read_block(bytes: &[u8; 2048], b: usize, content: &mut [u32; 504]) -> bool
    requires { b < 4 }
    ensures value { result ≡ block_is_whole bytes.now b }
    ensures content_after { content.new ≡ filled_from (content_at bytes.now) (126 * b) 126 content.old }
{
    let sum = read_content(bytes, b, content);
    let number = word_at(bytes, 128 * b);
    let check = word_at(bytes, 128 * b + 127);
    (number as usize == b) & (check == sum)
}

// Whether the bytes are four blocks, each with its number and its check; their content is taken either way, as `content_after` says here too.
pub fn read_form(bytes: &[u8; 2048], content: &mut [u32; 504]) -> bool
    ensures value { result ≡ is_whole bytes.now }
    ensures content_after { content.new ≡ filled (content_at bytes.now) 504 content.old }
{
    let mut whole = true;
    for b in 0..4 {
        whole &= read_block(bytes, b, content);
    }
    whole
}
