// SPDX-License-Identifier: MIT OR Apache-2.0
// The square root of an f64, rounded once: the double nearest to it, which is never a tie. Worked out in whole numbers from the float's
// pattern, since the kit has no root of its own.
#![tactic(auto)]

ghost use Rattle.std.specs.Prelude.{◌≡◌, ◌+◌, ◌*◌, ◌^◌, ◌<◌, ◌≤◌};
ghost use Rattle.root.specs.Root.{root_of};
ghost use Rattle.root.specs.Parts.{Floor, Evened, Rounded, units_of};

const TWO_27: u64 = 134_217_728;

const TWO_38: u64 = 274_877_906_944;

const TWO_52: u64 = 4_503_599_627_370_496;

// The pattern of the infinity: every number above zero has a smaller one.
const INFINITY: u64 = 0x7ff0_0000_0000_0000;

// m * 2^(2 h).
#[derive(Clone, Copy)]
struct Even {
    pub m: u64,
    pub h: u64,
}

// The whole part of the root of m, from an r that is no less: few roots come this way.
fn stepped_down(m: u64, start: u64) -> u64
    requires { (m < (start + 1) * (start + 1)) × (start ≤ 2 ^ 29) }
    ensures { Floor m result }
{
    let mut r = start;
    while m < r * r {
        r -= 1;
    }
    r
}

// The whole part of the root of m, for m from 2^52 up and below 2^54. The quadratic is within 0.6% of the root, and two steps of
// Newton's bring that to the root, or to one more, for about one m in 300. The proof does not lean on how good the guess is.
fn narrow_root(m: u64) -> u64
    requires { (2 ^ 52 ≤ m) × (m < 2 ^ 54) }
    ensures { Floor m result }
{
    let t = m / TWO_38;
    let g = (4250 + t * (17226 - t * 323 / 4096) / 65536) * 8192;
    let k = (g + m / g) / 2;
    let r = (k + m / k) / 2;
    if m < r * r {
        return stepped_down(m, r - 1);
    }
    r
}

// The whole part of the root of m * 2^54. With a the root of m and q the quotient of what it leaves, times 2^27, by 2 a, it is
// a * 2^27 + q or one less: m * 2^54 less the square of a * 2^27 + q is (the remainder) * 2^27 - q * q.
fn wide_root(m: u64) -> u64
    requires { (2 ^ 52 ≤ m) × (m < 2 ^ 54) }
    ensures { Floor (m * 2 ^ 54) result }
{
    let a = narrow_root(m);
    let n = (m - a * a) * TWO_27;
    let d = 2 * a;
    let q = n / d;
    let s = a * TWO_27 + q;
    if (n - q * d) * TWO_27 < q * q {
        s - 1
    } else {
        s
    }
}

// The pattern b's value is m * 2^(2 h) in units of 2^-2148, with m from 2^52 up and below 2^54.
fn split(b: u64) -> Even
    requires { (0 < b) × (b < 0x7ff0_0000_0000_0000) }
    ensures { Evened b result.m result.h }
{
    let f = b / TWO_52;
    let t = b % TWO_52;
    let mut m = t + TWO_52;
    let mut e = f + 1073;
    if f == 0 {
        let z = u64::from(t.leading_zeros()) - 11;
        m = t << z;
        e = 1074 - z;
    }
    Even {
        m: m * (1 + e % 2),
        h: e / 2,
    }
}

// The pattern of the root of the pattern b's value. Twice the root has 54 digits; the last of them rounds.
fn pattern(b: u64) -> u64
    requires { (0 < b) × (b < 0x7ff0_0000_0000_0000) }
    ensures { Rounded (units_of b * 2 ^ 1074) result }
{
    let p = split(b);
    let s = wide_root(p.m);
    (p.h - 26) * TWO_52 + (s + 1) / 2
}

// NaN of a NaN and of what is below zero; a zero keeps its sign, the infinity stays.
pub fn root(x: f64) -> f64
    ensures { result ≡ root_of x }
{
    if x > 0.0 {
        let b = x.to_bits();
        if b < INFINITY {
            return f64::from_bits(pattern(b));
        }
        return x;
    }
    if x == 0.0 { x } else { f64::NAN }
}
