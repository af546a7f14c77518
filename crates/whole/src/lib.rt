// SPDX-License-Identifier: MIT OR Apache-2.0
// Whole numbers in f64: sums, differences, products and comparisons are exact up to 2^53. Laws for later proofs (proofs/), no code.
#![tactic(auto)]
