// SPDX-License-Identifier: MIT OR Apache-2.0
// The point-mass forecaster: nine lines on standard input, a line a sample on standard output. All that it prints is `forecaster`'s; here it
// is only read and written.
#![tactic(auto)]

ghost use Rattle.std.specs.Prelude.{◌≤◌, length, IfOk};

use forecaster::Forecast;
use std::io::{self, Read, Stdin, Stdout, Write};

// One byte more than nine lines have: a text that fills it is too long to be an input.
const TEXT: usize = 154;

// More pieces than any forecast has.
const TURNS: u64 = 0x1000_0000_0000;

// So many bytes of the input, up to its end or as many as have place: the buffer is fixed, since there is no heap.
fn read_full(input: &mut Stdin, text: &mut [u8]) -> io::Result<usize>
    ensures { IfOk result (λ n. n ≤ length text.old) }
{
    let mut n = 0usize;
    // A while, as in Rust: no iterator says where the next read begins, since each gives as many bytes as it likes.
    while n < text.len() {
        let got = input.read(&mut text[n..])?;
        if got == 0 {
            return Ok(n);
        }
        n += got;
    }
    Ok(n)
}

// A piece printed; where it can't be written that is the end.
fn print_piece(out: &mut Stdout, now: Forecast, bytes: &mut [u8]) -> io::Result<Forecast> {
    let printed = forecaster::print_on(now, bytes);
    let n = printed.count;
    if n > bytes.len() {
        return Ok(Forecast::Over(None));
    }
    out.write_all(&bytes[..n])?;
    Ok(printed.forecast)
}

fn main(rt: HostRuntime) -> io::Result<()> {
    let mut text = [0u8; TEXT];
    let n = read_full(&mut rt.stdin(), &mut text)?;
    let mut now = forecaster::begin(&text[..n]);
    let mut out = rt.stdout();
    // For the longest piece, since there is no heap.
    let mut bytes = [0u8; forecaster::LONGEST];
    for _ in 0..TURNS {
        if now.is_over() {
            break;
        }
        now = print_piece(&mut out, now, &mut bytes)?;
    }
    Ok(())
}
