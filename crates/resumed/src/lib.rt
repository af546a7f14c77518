// SPDX-License-Identifier: MIT OR Apache-2.0
// A line of calls with storings and loadings follows the rules (W-201). No code: theorems over the crates below.
#![tactic(auto)]
