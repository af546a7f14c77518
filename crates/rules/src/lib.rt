// SPDX-License-Identifier: MIT OR Apache-2.0
// Document 01's rules as one tree of questions (specs/), and the theorem that every line of calls follows it (proofs/). No code.
#![tactic(auto)]
