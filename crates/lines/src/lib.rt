// SPDX-License-Identifier: MIT OR Apache-2.0
// Numbers as text: into lent bytes, and out of them. No function writes a byte where not all of its bytes have room. Each is told the place where
// it begins and tells the place after: the bytes are lent, and a writer that held both would say the same in each contract.
#![tactic(auto)]

ghost use Rattle.std.specs.Prelude.{◌≡◌};
ghost use Rattle.lines.specs.Put.{put, after};
ghost use Rattle.lines.specs.Digits.{hex_of, float_hex, decimal_of};
ghost use Rattle.lines.specs.Lines.{refusal_line, put_line, after_line};
ghost use Rattle.lines.specs.Read.{read_hex};
ghost use Rattle.lines.specs.Nine.{read_nine};

mod reading;
mod rows;
mod spell;
mod word;

// The sixteen hex digits of a number; the place after them.
pub fn put_hex(x: u64, at: usize, out: &mut [u8]) -> usize
    ensures value { result ≡ after (hex_of x) at out.old }
    ensures out_after { out.new ≡ put (hex_of x) at out.old }
{
    if !spell::has_room(16, at, out.len()) {
        return at;
    }
    spell::hex(x, at, out);
    at + 16
}

// A float: the hex digits of its bits, for every NaN the same; the place after them.
pub fn put_float(x: f64, at: usize, out: &mut [u8]) -> usize
    ensures value { result ≡ after (float_hex x) at out.old }
    ensures out_after { out.new ≡ put (float_hex x) at out.old }
{
    put_hex(bits::bits_of(x), at, out)
}

// A number in decimal; the place after it.
pub fn put_decimal(n: u64, at: usize, out: &mut [u8]) -> usize
    ensures value { result ≡ after (decimal_of n) at out.old }
    ensures out_after { out.new ≡ put (decimal_of n) at out.old }
{
    let k = spell::places(n);
    if !spell::has_room(k, at, out.len()) {
        return at;
    }
    spell::decimal(n, k, at, out);
    at + k
}

// A refusal's line: its number and a newline; the place after it.
pub fn put_refusal(n: u64, at: usize, out: &mut [u8]) -> usize
    ensures value { result ≡ after (refusal_line n) at out.old }
    ensures out_after { out.new ≡ put (refusal_line n) at out.old }
{
    let k = spell::places(n);
    if !spell::has_room(k + 1, at, out.len()) {
        return at;
    }
    rows::refusal(n, k, at, out)
}

// A sample's line: its number, and the ten numbers from place `first` on, each after a blank; the place after it. Nothing is written where the
// ten numbers are not there, or 191 bytes, which the longest line takes, have no room.
pub fn put_line(n: u64, numbers: &[f64], first: usize, at: usize, out: &mut [u8]) -> usize
    ensures value { result ≡ after_line n numbers.now first at out.old }
    ensures out_after { out.new ≡ put_line n numbers.now first at out.old }
{
    if !spell::has_room(10, first, numbers.len()) {
        return at;
    }
    if !spell::has_room(191, at, out.len()) {
        return at;
    }
    rows::sample(n, numbers, first, at, out)
}

// The number whose sixteen hex digits, small or capital, stand from `at` on.
pub fn read_hex(text: &[u8], at: usize) -> Option<u64>
    ensures { result ≡ read_hex text.now at }
{
    reading::sixteen(text.get(at..)?.get(..16)?)
}

// Nine lines, each of sixteen hex digits and a newline; the ninth newline may be missing, and nothing else may be there.
pub fn read_nine(text: &[u8]) -> Option<[u64; 9]>
    ensures { result ≡ read_nine text.now }
{
    if text.len() < 152 || text.len() > 153 {
        return None;
    }
    reading::lines(text)
}
