// SPDX-License-Identifier: MIT OR Apache-2.0
// Words apart by blanks, and the numbers in them.
ghost use Rattle.std.specs.Prelude.{◌<◌, length};
ghost use Rattle.std.specs.Iterator.{at_most};
ghost use Rattle.std.specs.Option.{IfSome};

use triple::Triple;

// What is left of a line. Each item is a word, which is never empty.
#[derive(Drop)]
pub struct Words<'a> {
    pub rest: &'a [u8],
}

impl<'a> Iterator for Words<'a> {
    type Item = &'a [u8];

    ghost remaining = { λ s. at_most (length s.rest.now) };

    fn next(&mut self) -> Option<&'a [u8]> {
        let start = self.rest.iter().position(|b| *b != b' ')?;
        let from = &self.rest[start..];
        let end = from.iter().position(|b| *b == b' ').unwrap_or(from.len());
        let (word, rest) = from.split_at(end);
        self.rest = rest;
        Some(word)
    }
}

// Sixteen hex digits: a float's bits.
fn pattern(word: &[u8]) -> Option<u64> {
    if word.len() != 16 {
        return None;
    }
    lines::read_hex(word, 0)
}

impl<'a> Words<'a> {
    pub fn pattern(&mut self) -> Option<u64> {
        pattern(self.next()?)
    }

    pub fn float(&mut self) -> Option<f64> {
        Some(bits::float_of(self.pattern()?))
    }

    pub fn triple(&mut self) -> Option<Triple> {
        let x = self.float()?;
        let y = self.float()?;
        let z = self.float()?;
        Some(Triple { x, y, z })
    }

    // One to ten decimal digits.
    pub fn count(&mut self) -> Option<u64> {
        let word = self.next()?;
        if word.len() > 10 {
            return None;
        }
        let mut n = 0u64;
        for b in word {
            let d = char::from(*b).to_digit(10)?;
            n = n.checked_mul(10)?.checked_add(u64::from(d))?;
        }
        Some(n)
    }

    // 0 or 1, in one digit.
    pub fn flag(&mut self) -> Option<u8> {
        match self.next()? {
            b"0" => Some(0),
            b"1" => Some(1),
            _ => None,
        }
    }

    // All that are left, each a float; says how many. None where there are more than have room and leave one place.
    pub fn floats(&mut self, into: &mut [f64]) -> Option<usize>
        ensures { IfSome result (λ n. n < length into.old) }
    {
        for (n, place) in into.iter_mut().enumerate() {
            let Some(word) = self.next() else {
                return Some(n);
            };
            *place = bits::float_of(pattern(word)?);
        }
        None
    }
}
