// SPDX-License-Identifier: MIT OR Apache-2.0
// Demand 3: how many steps and answers a run takes is known beforehand (specs/), and proved for every acceleration (proofs/). No code.
#![tactic(auto)]
