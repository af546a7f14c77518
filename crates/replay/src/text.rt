// SPDX-License-Identifier: MIT OR Apache-2.0
// Lines of the transcript, put together in a small buffer (there is no heap) and written whole: `write!` to the output would write each part by
// itself, and its floats are not in hex.
use gauss_jackson::{Question, Solution};
use refusals::Refusal;
use std::io::{self, Stdout, Write};
use triple::Triple;

const WIDTH: usize = 512;

// A line on its way: so many bytes of it are there. What has no room is left out.
#[derive(Drop)]
struct Line {
    bytes: [u8; WIDTH],
    length: usize,
}

impl Line {
    // A line that begins so.
    fn new(what: &[u8]) -> Line {
        let mut line = Line {
            bytes: [0; WIDTH],
            length: 0,
        };
        line.text(what);
        line
    }

    fn byte(&mut self, b: u8) {
        if self.length < WIDTH {
            self.bytes[self.length] = b;
            self.length += 1;
        }
    }

    fn text(&mut self, text: &[u8]) {
        for b in text {
            self.byte(*b);
        }
    }

    // A blank and a number.
    fn number(&mut self, n: u64) {
        self.byte(b' ');
        self.length = lines::put_decimal(n, self.length, &mut self.bytes);
    }

    // A blank and sixteen hex digits, or a blank and nan.
    fn float(&mut self, x: f64) {
        self.byte(b' ');
        match bits::pattern_of(x) {
            Some(pattern) => {
                self.length = lines::put_hex(pattern, self.length, &mut self.bytes);
            }
            None => self.text(b"nan"),
        }
    }

    fn floats(&mut self, numbers: &[f64]) {
        for x in numbers {
            self.float(*x);
        }
    }

    fn triple(&mut self, x: Triple) {
        self.floats(&[x.x, x.y, x.z]);
    }

    // Writes the line with its end.
    fn print(&mut self, to: &mut Stdout) -> io::Result<()> {
        self.byte(b'\n');
        match self.bytes.get(..self.length) {
            Some(line) => to.write_all(line),
            None => Ok(()),
        }
    }
}

pub fn print_ask(to: &mut Stdout, q: Question) -> io::Result<()> {
    let mut line = Line::new(b"ask");
    line.number(u64::from(q.number));
    line.float(q.t);
    line.triple(q.r);
    line.triple(q.v);
    line.print(to)
}

pub fn print_done(to: &mut Stdout, s: Solution) -> io::Result<()> {
    let mut line = Line::new(b"done");
    line.float(s.t);
    line.triple(s.r);
    line.triple(s.v);
    line.number(s.evals);
    line.number(s.steps);
    line.number(s.startup_iters);
    line.print(to)
}

// `sample n` and its ten numbers.
pub fn print_sample(to: &mut Stdout, n: usize, numbers: &[f64]) -> io::Result<()> {
    let mut line = Line::new(b"sample");
    line.number(n as u64);
    line.floats(numbers);
    line.print(to)
}

// `interp` and the numbers of one time.
pub fn print_between(to: &mut Stdout, numbers: &[f64]) -> io::Result<()> {
    let mut line = Line::new(b"interp");
    line.floats(numbers);
    line.print(to)
}

fn print_number(to: &mut Stdout, what: &[u8], n: u64) -> io::Result<()> {
    let mut line = Line::new(what);
    line.number(n);
    line.print(to)
}

pub fn print_refused(to: &mut Stdout, e: Refusal) -> io::Result<()> {
    print_number(to, b"refused", u64::from(u8::from(e)))
}

pub fn print_bad(to: &mut Stdout, number: u64) -> io::Result<()> {
    print_number(to, b"bad line", number)
}

// A keyword, and a name, which may be longer than any other line.
pub fn print_named(to: &mut Stdout, what: &[u8], name: &[u8]) -> io::Result<()> {
    to.write_all(what)?;
    to.write_all(name)?;
    to.write_all(b"\n")
}
