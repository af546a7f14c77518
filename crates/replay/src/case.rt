// SPDX-License-Identifier: MIT OR Apache-2.0
// A case: the words behind its name.
use crate::away;
use crate::force::Force;
use crate::words::Words;
use gauss_jackson::Settings;
use triple::Triple;

#[derive(Clone, Copy)]
pub struct Case {
    pub settings: Settings,
    pub t0: f64,
    pub tf: f64,
    pub r0: Triple,
    pub v0: Triple,
    pub force: Force,
    // Before every so many-th answer the run is put away and taken up; none is never.
    pub away: Option<u64>,
}

// The step, the passes of corrector and startup, each with its tolerance, the most steps, and whether samples are wanted.
fn settings(words: &mut Words<'_>) -> Option<Settings> {
    let h = words.float()?;
    let max_corrector_iters = words.count()?;
    let corrector_tol = words.float()?;
    let max_startup_iters = words.count()?;
    let startup_tol = words.float()?;
    let max_steps = words.count()?;
    let samples = words.flag()?;
    Some(Settings {
        h,
        corrector_tol,
        startup_tol,
        max_corrector_iters,
        max_startup_iters,
        max_steps,
        samples,
    })
}

// None where a word is missing, left over or misshapen.
pub fn read(words: &mut Words<'_>) -> Option<Case> {
    let t0 = words.float()?;
    let tf = words.float()?;
    let settings = settings(words)?;
    let r0 = words.triple()?;
    let v0 = words.triple()?;
    let force = Force::read(words)?;
    let away = away::read(words)?;
    Some(Case {
        settings,
        t0,
        tf,
        r0,
        v0,
        force,
        away,
    })
}
