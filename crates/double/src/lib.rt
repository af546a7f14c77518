// SPDX-License-Identifier: MIT OR Apache-2.0
// An f64 as a number: its sign, its own fraction, its whole units of 2^-1074, its neighbours, how far a rounding may be off, and which f64 is
// nearest to a decimal. Laws for later proofs (proofs/), no code.
#![tactic(auto)]
