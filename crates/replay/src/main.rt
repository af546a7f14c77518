// SPDX-License-Identifier: MIT OR Apache-2.0
// Cases, tables and times on standard input, transcripts on standard output, in the oracle's format: every question, sample, state,
// count and refusal of the proved library, and what it tells between samples. A case may ask for its run to be put away and taken up on
// its way, which may change nothing. Reads and writes in pieces; a misshapen line is answered `bad line N`, and the reading goes on.
#![tactic(auto)]

mod away;
mod between;
mod case;
mod force;
mod line;
mod play;
mod text;
mod words;

use line::Partial;
use std::io::{self, Read, Stdout};

// Room for 2,001 samples, ten numbers each.
const ROOM: usize = 20010;

// So many bytes are read at once, and so many times: more than there are.
const PIECE: usize = 4096;

const PIECES: u64 = 0x1000_0000_0000;

// What is kept from line to line: the line's number from 1, and the samples that the last case or table left.
#[derive(Drop)]
pub struct Replay {
    pub to: Stdout,
    pub number: u64,
    pub samples: [f64; ROOM],
    // So many numbers of them are held: the room is fixed, since there is no heap.
    pub held: usize,
}

fn main(rt: HostRuntime) -> io::Result<()> {
    let mut input = rt.stdin();
    let mut replay = Replay {
        to: rt.stdout(),
        number: 1,
        samples: [0.0; ROOM],
        held: 0,
    };
    let mut partial = Partial::new();
    let mut piece = [0u8; PIECE];
    for _ in 0..PIECES {
        let n = input.read(&mut piece)?;
        if n == 0 {
            break;
        }
        replay.take(&piece[..n], &mut partial)?;
    }
    replay.finish(&partial)
}
