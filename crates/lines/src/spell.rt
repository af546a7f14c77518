// SPDX-License-Identifier: MIT OR Apache-2.0
// Digits into bytes that have room for them.
ghost use Rattle.std.specs.Prelude.{◌≡◌, ◌+◌, ◌≤◌, leb, length};
ghost use Rattle.lines.specs.Put.{over};
ghost use Rattle.lines.specs.Digits.{digits, hex_of};
ghost use Rattle.lines.specs.Digits.{places as Digits·places};

use crate::word;

// Whether `k` bytes have room from `at` on, of `room`.
pub fn has_room(k: usize, at: usize, room: usize) -> bool
    ensures { result ≡ leb (at + k) room }
{
    at <= room && k <= room - at
}

// The sixteen hex digits of a number.
pub fn hex(x: u64, at: usize, out: &mut [u8])
    requires { at + 16 ≤ length out.old }
    ensures { out.new ≡ over at (hex_of x) out.old }
{
    let first = word::eight_digits(x / 0x1_0000_0000);
    let last = word::eight_digits(x % 0x1_0000_0000);
    word::put_bytes(first, at, out);
    word::put_bytes(last, at + 8, out);
}

// How many decimal digits a number has.
pub fn places(n: u64) -> usize
    ensures { (result ≡ Digits·places 19 n) × (result ≤ 20) }
{
    n.checked_ilog10().unwrap_or(0) as usize + 1
}

// The last k decimal digits of a number.
pub fn decimal(n: u64, k: usize, at: usize, out: &mut [u8])
    requires { at + k ≤ length out.old }
    ensures { out.new ≡ over at (digits 10 k n) out.old }
{
    let mut rest = n;
    for i in (0..k).rev() {
        out[at + i] = b'0' + (rest % 10) as u8;
        rest /= 10;
    }
}
