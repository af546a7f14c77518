// SPDX-License-Identifier: MIT OR Apache-2.0
// What document 01 says of times between samples, as theorems about the definitions of `dense`. No code.
#![tactic(auto)]
