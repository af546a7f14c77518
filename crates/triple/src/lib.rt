// SPDX-License-Identifier: MIT OR Apache-2.0
// Triples of f64, and the three records that are made of them: all by value, laid out as C has them; every function is total.
// Operations go component by component, each product and each sum rounded once (01, "What is carried over").
#![tactic(auto)]

ghost use Rattle.std.specs.Prelude.{◌≡◌};
ghost use Rattle.triple.specs.Arithmetic.{thrice, zeros, plus, minus, times, over};
ghost use Rattle.triple.specs.Size.{absolute, larger_of, mean_square, size_of};
ghost use Rattle.triple.specs.Finite.{is_finite};
ghost use Rattle.triple.specs.Sampled.{at_time, with_acceleration};

pub mod nine;

#[repr(C)]
#[derive(Clone, Copy)]
pub struct Triple {
    pub x: f64,
    pub y: f64,
    pub z: f64,
}

// How many numbers a sample takes.
pub const SAMPLE_WIDTH: usize = 10;

// A position and a velocity, at a time that is known otherwise.
#[repr(C)]
#[derive(Clone, Copy)]
pub struct State {
    pub r: Triple,
    pub v: Triple,
}

// Where a question is asked: a time, a position and a velocity.
#[repr(C)]
#[derive(Clone, Copy)]
pub struct Point {
    pub t: f64,
    pub r: Triple,
    pub v: Triple,
}

// What is stored of a step: its point, and the acceleration there.
#[repr(C)]
#[derive(Clone, Copy)]
pub struct Sample {
    pub t: f64,
    pub r: Triple,
    pub v: Triple,
    pub a: Triple,
}

impl Triple {
    // Three times x.
    pub fn thrice(x: f64) -> Triple
        ensures { result ≡ thrice x }
    {
        Triple { x, y: x, z: x }
    }

    // What every sum starts from.
    pub fn zero() -> Triple
        ensures { result ≡ zeros }
    {
        Triple::thrice(0.0)
    }

    pub fn plus(self, other: Triple) -> Triple
        ensures { result ≡ plus self other }
    {
        Triple {
            x: self.x + other.x,
            y: self.y + other.y,
            z: self.z + other.z,
        }
    }

    pub fn minus(self, other: Triple) -> Triple
        ensures { result ≡ minus self other }
    {
        Triple {
            x: self.x - other.x,
            y: self.y - other.y,
            z: self.z - other.z,
        }
    }

    pub fn times(self, k: f64) -> Triple
        ensures { result ≡ times self k }
    {
        Triple {
            x: self.x * k,
            y: self.y * k,
            z: self.z * k,
        }
    }

    // A true division: a product by 1 / k would round twice.
    pub fn over(self, k: f64) -> Triple
        ensures { result ≡ over self k }
    {
        Triple {
            x: self.x / k,
            y: self.y / k,
            z: self.z / k,
        }
    }

    // The mean of the squares, each operation rounded once: what the size is the root of.
    pub fn mean_square(self) -> f64
        ensures { result ≡ mean_square self }
    {
        (self.x * self.x + self.y * self.y + self.z * self.z) / 3.0
    }

    // The root of the mean square: NaN where a component is, infinite where a square overflows.
    pub fn size(self) -> f64
        ensures { result ≡ size_of self }
    {
        root::root(self.mean_square())
    }
}

impl State {
    pub fn at(self, t: f64) -> Point
        ensures { result ≡ at_time self t }
    {
        Point {
            t,
            r: self.r,
            v: self.v,
        }
    }
}

impl Point {
    // The sample of it.
    pub fn with(self, a: Triple) -> Sample
        ensures { result ≡ with_acceleration self a }
    {
        Sample {
            t: self.t,
            r: self.r,
            v: self.v,
            a,
        }
    }
}

// The absolute value; of -0.0 it is 0.0, as in the Rust.
pub fn abs(x: f64) -> f64
    ensures { result ≡ absolute x }
{
    if x == 0.0 {
        return 0.0;
    }
    if x < 0.0 { -x } else { x }
}

// Neither a NaN nor an infinity: these leave a NaN, which differs from itself, where a finite number leaves 0.0.
pub fn is_finite(x: f64) -> bool
    ensures { result ≡ is_finite x }
{
    let rest = x - x;
    rest == rest
}

// a, unless b is greater: a NaN in b is passed over. Not `f64::max`, which passes one in a over too, and so would change the verdicts.
pub fn larger_of(a: f64, b: f64) -> f64
    ensures { result ≡ larger_of a b }
{
    if a < b { b } else { a }
}
