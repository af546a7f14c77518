// SPDX-License-Identifier: MIT OR Apache-2.0
// Lines that give samples outright, and lines that ask between the samples of the last case or table.
use crate::words::Words;
use crate::{Replay, text};
use refusals::Refusal;
use std::io;
use triple::SAMPLE_WIDTH;

// More floats than a line has room for, and the numbers told of so many times: buffers are fixed, since there is no heap.
const MOST: usize = 2048;

const ANSWER: usize = MOST * dense::BETWEEN_NUMBERS;

impl Replay {
    // The samples of the last case or table.
    fn held(&self) -> &[f64] {
        self.samples.get(..self.held).unwrap_or(&[])
    }

    // A table, which is held after it.
    pub fn take_table(&mut self, words: &mut Words<'_>) -> io::Result<()> {
        let Some(name) = words.next() else {
            return self.print_bad();
        };
        let mut numbers = [0.0f64; MOST];
        let Some(n) = words.floats(&mut numbers) else {
            return self.print_bad();
        };
        if n % SAMPLE_WIDTH != 0 {
            return self.print_bad();
        }
        self.samples[..n].copy_from_slice(&numbers[..n]);
        self.held = n;
        text::print_named(&mut self.to, b"table ", name)
    }

    // One time.
    pub fn tell_at(&mut self, words: &mut Words<'_>) -> io::Result<()> {
        let mut times = [0.0f64; MOST];
        let Some(1) = words.floats(&mut times) else {
            return self.print_bad();
        };
        let mut out = [0.0f64; dense::BETWEEN_NUMBERS];
        let told = dense::interpolate(times[0], self.held(), &mut out);
        self.tell(told, 1, &out)
    }

    // A row of times. The batch has a rule of its own for intervals, so this is no case of one time.
    pub fn tell_batch(&mut self, words: &mut Words<'_>) -> io::Result<()> {
        let mut times = [0.0f64; MOST];
        let Some(n) = words.floats(&mut times) else {
            return self.print_bad();
        };
        self.tell_times(&times[..n])
    }

    // In a function of its own: in the one above, this buffer would be cleared twice for each line, and once for a line that is bad.
    fn tell_times(&mut self, times: &[f64]) -> io::Result<()> {
        let mut out = [0.0f64; ANSWER];
        let told = dense::interpolate_batch(times, self.held(), &mut out);
        self.tell(told, times.len(), &out)
    }

    // What is told: a line for each time, or the refusal.
    fn tell(&mut self, told: Result<(), Refusal>, times: usize, out: &[f64]) -> io::Result<()> {
        if let Err(e) = told {
            return text::print_refused(&mut self.to, e);
        }
        for numbers in out.chunks_exact(dense::BETWEEN_NUMBERS).take(times) {
            text::print_between(&mut self.to, numbers)?;
        }
        Ok(())
    }
}
