// SPDX-License-Identifier: MIT OR Apache-2.0
// What a flight told, in lines, into bytes that have room for the longest piece. The bytes stay a slice with that bound: a longer one may be lent.
ghost use Rattle.std.specs.Prelude.{◌≡◌, ◌++◌, ◌+◌, ◌*◌, ◌^◌, ◌≤◌, ◌<◌, length};
ghost use Rattle.lines.specs.Put.{over};
ghost use Rattle.flight.specs.Flight.{ending_in};
ghost use Rattle.flight.specs.Told.{read_from};
ghost use Rattle.forecaster.specs.Printed.{entry_lines, ending_line};

use flight::Phase;
use triple::SAMPLE_WIDTH;

// The lines of so many samples of a room, the first of them sample `from`; the place after them.
fn put_entries(from: u64, count: u64, room: &[f64], out: &mut [u8]) -> usize
    requires { (0 < count → from + count < 2 ^ 64) × (count ≤ 64) × (10 * count ≤ length room.now) × (12245 ≤ length out.old) }
    ensures value { (result ≡ length (entry_lines (read_from count 0 from room.now))) × (result ≤ 12224) }
    ensures out_after { out.new ≡ over 0 (entry_lines (read_from count 0 from room.now)) out.old }
{
    let mut at = 0usize;
    for i in 0..count {
        at = lines::put_line(from + i, room, SAMPLE_WIDTH * (i as usize), at, out);
    }
    at
}

// The same, and behind them the number of the refusal that ended the flight, if one did.
pub fn put_told(from: u64, count: u64, phase: Phase, room: &[f64], out: &mut [u8]) -> usize
    requires { (0 < count → from + count < 2 ^ 64) × (count ≤ 64) × (10 * count ≤ length room.now) × (12245 ≤ length out.old) }
    ensures value { result ≡ length (entry_lines (read_from count 0 from room.now) ++ ending_line (ending_in phase)) }
    ensures out_after { out.new ≡ over 0 (entry_lines (read_from count 0 from room.now) ++ ending_line (ending_in phase)) out.old }
{
    let at = put_entries(from, count, room, out);
    match phase {
        Phase::Asks(_question) => at,
        Phase::Over(Ok(())) => at,
        Phase::Over(Err(refusal)) => {
            let number = u64::from(u8::from(refusal));
            lines::put_refusal(number, at, out)
        }
    }
}
