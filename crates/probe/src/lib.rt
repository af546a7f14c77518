// SPDX-License-Identifier: MIT OR Apache-2.0
// Leaves of the library for C, one by one: what tests/roots and bench/ hold to the processor's own root. Apps link `app`, which has none of
// these names.
#![tactic(auto)]

ghost use Rattle.std.specs.Prelude.{◌≡◌, cond};
ghost use Rattle.root.specs.Root.{root_of};
ghost use Rattle.triple.specs.Size.{size_of};
ghost use Rattle.conditions.specs.Conditions.{is_at_rest};

use triple::{State, Triple};

#[unsafe(no_mangle)]
pub extern "C" fn probe_root(x: f64) -> f64
    ensures { result ≡ root_of x }
{
    root::root(x)
}

#[unsafe(no_mangle)]
pub extern "C" fn probe_size(a: Triple) -> f64
    ensures { result ≡ size_of a }
{
    a.size()
}

// For C 1 where a step's corrections have come to rest, else 0.
#[unsafe(no_mangle)]
pub extern "C" fn probe_is_at_rest(tol: f64, before: State, after: State) -> u8
    ensures { result ≡ cond (is_at_rest tol before after) 1 0 }
{
    u8::from(conditions::is_at_rest(tol, before, after))
}
