// SPDX-License-Identifier: MIT OR Apache-2.0
// Lines out of pieces of the input, and what each asks for.
use crate::words::Words;
use crate::{Replay, case, text};
use std::io;

// The longest line.
const LONGEST: usize = 32768;

// The line that is being read, as far as it is; no length where it is too long. The buffer is fixed, since there is no heap.
#[derive(Drop)]
pub struct Partial {
    bytes: [u8; LONGEST],
    length: Option<usize>,
}

impl Partial {
    pub fn new() -> Partial {
        Partial {
            bytes: [0; LONGEST],
            length: Some(0),
        }
    }

    pub fn push(&mut self, b: u8) {
        let Some(n) = self.length else {
            return;
        };
        if n < LONGEST {
            self.bytes[n] = b;
            self.length = Some(n + 1);
        } else {
            self.length = None;
        }
    }

    // The line; none where it is too long.
    pub fn line(&self) -> Option<&[u8]> {
        self.bytes.get(..self.length?)
    }

    pub fn is_empty(&self) -> bool {
        self.length == Some(0)
    }

    pub fn clear(&mut self) {
        self.length = Some(0);
    }
}

impl Replay {
    // A piece of the input: each line that ends in it is dealt with.
    pub fn take(&mut self, piece: &[u8], partial: &mut Partial) -> io::Result<()> {
        for b in piece {
            if *b == b'\n' {
                self.deal(partial.line())?;
                self.number = self.number.wrapping_add(1);
                partial.clear();
            } else {
                partial.push(*b);
            }
        }
        Ok(())
    }

    // The last line may have no end.
    pub fn finish(&mut self, partial: &Partial) -> io::Result<()> {
        if partial.is_empty() {
            return Ok(());
        }
        self.deal(partial.line())
    }

    // One line; none is one that is too long.
    fn deal(&mut self, line: Option<&[u8]>) -> io::Result<()> {
        let Some(line) = line else {
            return self.print_bad();
        };
        if line.starts_with(b"#") {
            return Ok(());
        }
        if !line.iter().all(|b| *b == b' ' || b.is_ascii_graphic()) {
            return self.print_bad();
        }
        let mut words = Words { rest: line };
        match words.next() {
            Some(first) => self.deal_with(first, &mut words),
            None => Ok(()),
        }
    }

    // What the first word asks for.
    fn deal_with(&mut self, first: &[u8], words: &mut Words<'_>) -> io::Result<()> {
        match first {
            b"case" => self.deal_with_case(words, true),
            b"final" => self.deal_with_case(words, false),
            b"table" => self.take_table(words),
            b"at" => self.tell_at(words),
            b"batch" => self.tell_batch(words),
            _ => self.print_bad(),
        }
    }

    // A `case` is told whole; of a `final` only the end is, so that a year can stand in a list. One truth for two words, asked at two places: no
    // step to run depends on it.
    fn deal_with_case(&mut self, words: &mut Words<'_>, whole: bool) -> io::Result<()> {
        let Some(name) = words.next() else {
            return self.print_bad();
        };
        let Some(case) = case::read(words) else {
            return self.print_bad();
        };
        let what = if whole {
            b"case ".as_slice()
        } else {
            b"final ".as_slice()
        };
        text::print_named(&mut self.to, what, name)?;
        self.play(case, whole)
    }

    pub fn print_bad(&mut self) -> io::Result<()> {
        text::print_bad(&mut self.to, self.number)
    }
}
