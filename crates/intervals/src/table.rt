// SPDX-License-Identifier: MIT OR Apache-2.0
// A table of samples: ten numbers each. Total: past the last sample every number is NaN.
#![tactic(auto, unfolding(crate::specs::Table::count_of))]

ghost use Rattle.std.specs.Prelude.{◌≡◌, ◌+◌, ◌<◌, length};
ghost use Rattle.intervals.specs.Table.{count_of, time_of, three_at, no_sample, sample_of};

use triple::{SAMPLE_WIDTH, Sample, Triple};

// How many whole samples there are.
pub fn count_of(samples: &[f64]) -> usize
    ensures { result ≡ count_of samples.now }
{
    samples.len() / SAMPLE_WIDTH
}

// The time alone, since a search reads nothing else.
pub fn time_of(samples: &[f64], n: usize) -> f64
    ensures { result ≡ time_of samples.now n }
{
    if n < count_of(samples) {
        return samples[SAMPLE_WIDTH * n];
    }
    f64::NAN
}

fn none() -> Sample
    ensures { result ≡ no_sample }
{
    let nans = Triple::thrice(f64::NAN);
    Sample {
        t: f64::NAN,
        r: nans,
        v: nans,
        a: nans,
    }
}

// The three numbers from place p on.
fn triple_at(samples: &[f64], p: usize) -> Triple
    requires { p + 2 < length samples.now }
    ensures { result ≡ three_at samples.now p (p + 1) (p + 2) }
{
    Triple {
        x: samples[p],
        y: samples[p + 1],
        z: samples[p + 2],
    }
}

pub fn sample_of(samples: &[f64], n: usize) -> Sample
    ensures { result ≡ sample_of samples.now n }
{
    if n < count_of(samples) {
        let p = SAMPLE_WIDTH * n;
        return Sample {
            t: samples[p],
            r: triple_at(samples, p + 1),
            v: triple_at(samples, p + 4),
            a: triple_at(samples, p + 7),
        };
    }
    none()
}

// Sample n + 1, where n may be the largest number there is.
pub fn sample_after(samples: &[f64], n: usize) -> Sample
    ensures { result ≡ sample_of samples.now (n + 1) }
{
    if n < count_of(samples) {
        return sample_of(samples, n + 1);
    }
    none()
}
