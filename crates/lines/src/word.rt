// SPDX-License-Identifier: MIT OR Apache-2.0
// Eight hex digits at once, as the eight bytes of a word: a few instructions for all of them.
ghost use Rattle.std.specs.Prelude.{◌≡◌, ◌+◌, ◌≤◌, ◌<◌, ◌^◌, length};
ghost use Rattle.lines.specs.Put.{over};
ghost use Rattle.lines.specs.Digits.{digits};
ghost use Rattle.lines.specs.Words.{fields, bytes_of};

// The eight hex digits of a number below 2^32, the first one in the lowest byte. Halves, then bytes, then half bytes change places, each time all
// of them at once; 6 more carries a digit above 9 over 16, and 39 is what the letters stand behind the numerals.
pub fn eight_digits(x: u64) -> u64
    requires { x < 2 ^ 32 }
    ensures { result ≡ fields 256 (digits 16 8 x) }
{
    let halves = x % 0x1_0000 * 0x1_0000_0000 + x / 0x1_0000;
    let bytes = (halves & 0x0000_00ff_0000_00ff) * 0x1_0000
        + (halves / 0x100 & 0x0000_00ff_0000_00ff);
    let half_bytes = (bytes & 0x000f_000f_000f_000f) * 0x100
        + (bytes / 0x10 & 0x000f_000f_000f_000f);
    let letters = (half_bytes + 0x0606_0606_0606_0606) / 0x10 & 0x0101_0101_0101_0101;
    half_bytes + 0x3030_3030_3030_3030 + letters * 39
}

// The eight bytes of a word, the lowest first.
pub fn put_bytes(w: u64, at: usize, out: &mut [u8])
    requires { at + 8 ≤ length out.old }
    ensures { out.new ≡ over at (bytes_of 8 w) out.old }
{
    out[at..at + 8].copy_from_slice(&w.to_le_bytes());
}
