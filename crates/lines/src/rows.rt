// SPDX-License-Identifier: MIT OR Apache-2.0
// Lines into bytes that have room for them.
ghost use Rattle.std.specs.Prelude.{◌≡◌, ◌+◌, ◌≤◌, length};
ghost use Rattle.lines.specs.Put.{over};
ghost use Rattle.lines.specs.Digits.{places};
ghost use Rattle.lines.specs.Lines.{floats_of, sample_line, refusal_line, ten_from};

use crate::spell;

// Ten floats in hex, a blank before each.
fn floats(numbers: &[f64], first: usize, at: usize, out: &mut [u8])
    requires { (first + 10 ≤ length numbers.now) × (at + 170 ≤ length out.old) }
    ensures { out.new ≡ over at (floats_of (ten_from first numbers.now)) out.old }
{
    for (i, x) in numbers[first..first + 10].iter().enumerate() {
        let place = at + 17 * i;
        out[place] = b' ';
        spell::hex(bits::bits_of(*x), place + 1, out);
    }
}

// A refusal's line, whose number has k digits; the place after it.
pub fn refusal(n: u64, k: usize, at: usize, out: &mut [u8]) -> usize
    requires { (k ≡ places 19 n) × (at + (k + 1) ≤ length out.old) }
    ensures value { result ≡ at + (k + 1) }
    ensures out_after { out.new ≡ over at (refusal_line n) out.old }
{
    spell::decimal(n, k, at, out);
    let end = at + k;
    out[end] = b'\n';
    end + 1
}

// A sample's line; the place after it.
pub fn sample(n: u64, numbers: &[f64], first: usize, at: usize, out: &mut [u8]) -> usize
    requires { (first + 10 ≤ length numbers.now) × (at + 191 ≤ length out.old) }
    ensures value { result ≡ at + length (sample_line n (ten_from first numbers.now)) }
    ensures out_after { out.new ≡ over at (sample_line n (ten_from first numbers.now)) out.old }
{
    let k = spell::places(n);
    let blank = at + k;
    let end = blank + 170;
    spell::decimal(n, k, at, out);
    floats(numbers, first, blank, out);
    out[end] = b'\n';
    end + 1
}
