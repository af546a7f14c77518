// SPDX-License-Identifier: MIT OR Apache-2.0
// A float and its bit pattern. A NaN has no pattern of its own here: every NaN pattern reads as the one NaN, and a NaN reads as none.
#![tactic(auto)]

ghost use Rattle.std.specs.Prelude.{◌≡◌};
ghost use Rattle.std.specs.Float.Ieee.{of_bits, to_bits};
ghost use Rattle.std.specs.Float.{binary64};
ghost use Rattle.bits.specs.Patterns.{pattern_of};

use std::num;

// The float of a pattern.
pub fn float_of(bits: u64) -> f64
    ensures { result ≡ of_bits binary64 bits }
{
    num::f64_from_bits_with_nan(bits)
}

// The pattern of a float; none for a NaN.
pub fn pattern_of(x: f64) -> Option<u64>
    ensures { result ≡ pattern_of x }
{
    if x.is_nan() {
        return None;
    }
    Some(x.to_bits())
}

// The pattern of a float as it is stored: for a NaN the quiet one without sign and payload.
pub fn bits_of(x: f64) -> u64
    ensures { result ≡ to_bits binary64 x }
{
    num::f64_to_bits_with_nan(x)
}
