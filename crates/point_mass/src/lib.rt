// SPDX-License-Identifier: MIT OR Apache-2.0
// The point-mass forecaster (02, W-207): the pull of the earth as one point.
#![tactic(auto)]

pub mod force;
