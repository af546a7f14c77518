// SPDX-License-Identifier: MIT OR Apache-2.0
// The four forces of the case format, by component, each operation rounded once.
use crate::words::Words;
use triple::Triple;

// How much of the position, of the velocity and of the time.
#[derive(Clone, Copy)]
pub struct Weights {
    r: f64,
    v: f64,
    t: f64,
}

// A force with what it keeps between answers.
#[derive(Clone, Copy)]
pub enum Force {
    Linear(Weights),
    Cubic { factor: f64, constant: f64 },
    Random { state: u64 },
    // And the number of the next answer over the whole run.
    Mixed { weights: Weights, next: u64 },
}

impl Weights {
    fn component(self, t: f64, r: f64, v: f64) -> f64 {
        (self.r * r + self.v * v) + self.t * t
    }

    fn pull(self, t: f64, r: Triple, v: Triple) -> Triple {
        Triple {
            x: self.component(t, r.x, v.x),
            y: self.component(t, r.y, v.y),
            z: self.component(t, r.z, v.z),
        }
    }
}

fn cubic(factor: f64, constant: f64, r: f64) -> f64 {
    (factor * r) * (r * r) + constant
}

// Now and then a NaN or an infinity.
fn with_faults(next: u64, a: Triple) -> Triple {
    Triple {
        x: if next % 7 == 3 { f64::NAN } else { a.x },
        y: if next % 11 == 5 { f64::INFINITY } else { a.y },
        z: if next % 13 == 6 {
            f64::NEG_INFINITY
        } else {
            a.z
        },
    }
}

fn step(state: u64) -> u64 {
    state
        .wrapping_mul(6364136223846793005)
        .wrapping_add(1442695040888963407)
}

impl Force {
    // A force's name and the four parameters, of which it takes what it needs.
    pub fn read(words: &mut Words<'_>) -> Option<Force> {
        let name = words.next()?;
        let first = words.pattern()?;
        let r = bits::float_of(first);
        let v = words.float()?;
        let t = words.float()?;
        words.pattern()?;
        match name {
            b"lin" => Some(Force::Linear(Weights { r, v, t })),
            b"cub" => Some(Force::Cubic {
                factor: r,
                constant: v,
            }),
            b"lcg" => Some(Force::Random { state: first }),
            b"mix" => Some(Force::Mixed {
                weights: Weights { r, v, t },
                next: 0,
            }),
            _ => None,
        }
    }

    // The acceleration at a question; what is kept is then for the next.
    pub fn answer(&mut self, t: f64, r: Triple, v: Triple) -> Triple {
        match *self {
            Force::Linear(weights) => weights.pull(t, r, v),
            Force::Cubic { factor, constant } => Triple {
                x: cubic(factor, constant, r.x),
                y: cubic(factor, constant, r.y),
                z: cubic(factor, constant, r.z),
            },
            Force::Random { state } => {
                let x = step(state);
                let y = step(x);
                let z = step(y);
                *self = Force::Random { state: z };
                Triple {
                    x: bits::float_of(x),
                    y: bits::float_of(y),
                    z: bits::float_of(z),
                }
            }
            Force::Mixed { weights, next } => {
                *self = Force::Mixed {
                    weights,
                    next: next.wrapping_add(1),
                };
                with_faults(next, weights.pull(t, r, v))
            }
        }
    }
}
