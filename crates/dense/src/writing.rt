// SPDX-License-Identifier: MIT OR Apache-2.0
// What is written for each time, and where.
ghost use Rattle.std.specs.Prelude.{◌≡◌};
ghost use Rattle.intervals.specs.Intervals.{walked_to};
ghost use Rattle.dense.specs.Interpolation.{value_at, written, written_all};

use crate::BETWEEN_NUMBERS;
use intervals::table;
use quintic::Between;

// The quintic of interval k at t.
pub fn value(samples: &[f64], k: usize, t: f64) -> Between
    ensures { result ≡ value_at samples.now k t }
{
    quintic::quintic_hermite(
        table::sample_of(samples, k),
        table::sample_after(samples, k),
        t,
    )
}

// The numbers of time j, all of them or, where they have no room, none.
pub fn store(j: usize, b: Between, out: &mut [f64])
    ensures { out.new ≡ written j b out.old }
{
    if j < out.len() / BETWEEN_NUMBERS {
        let p = BETWEEN_NUMBERS * j;
        out[p] = b.r.x;
        out[p + 1] = b.r.y;
        out[p + 2] = b.r.z;
        out[p + 3] = b.v.x;
        out[p + 4] = b.v.y;
        out[p + 5] = b.v.z;
        out[p + 6] = b.a.x;
        out[p + 7] = b.a.y;
        out[p + 8] = b.a.z;
    }
}

// Time j of a batch that stands at interval k; gives the interval that it walked on to.
fn write_next(j: usize, t: f64, k: usize, samples: &[f64], out: &mut [f64]) -> usize
    ensures value { result ≡ walked_to samples.now t k }
    ensures out_after { out.new ≡ written j (value_at samples.now (walked_to samples.now t k) t) out.old }
{
    let at = intervals::walk_on(samples, t, k);
    store(j, value(samples, at, t), out);
    at
}

// Every time of a batch, in one walk from interval 0.
pub fn write_all(times: &[f64], samples: &[f64], out: &mut [f64])
    ensures { out.new ≡ written_all samples.now 0 0 times.now out.old }
{
    let mut k = 0usize;
    for (j, t) in times.iter().enumerate() {
        k = write_next(j, *t, k, samples, out);
    }
}
