// SPDX-License-Identifier: MIT OR Apache-2.0
// A case, played: every question answered by its force, until the run is done or refused.
use crate::case::Case;
use crate::{ROOM, Replay, away, text};
use gauss_jackson::{Outcome, Solution};
use std::io;
use triple::SAMPLE_WIDTH;

// More answers than any run has.
const ANSWERS: u64 = 0x1000_0000_0000;

// How many numbers a finished run has stored: ten a sample, one sample a step and one more.
fn stored(case: &Case, steps: u64) -> usize {
    if !plan::limits::wants_samples(case.settings) {
        return 0;
    }
    if steps < (ROOM / SAMPLE_WIDTH) as u64 {
        return (steps as usize + 1) * SAMPLE_WIDTH;
    }
    0
}

impl Replay {
    // Plays a case, which leaves its samples. The transcript is whole, or its end alone.
    pub fn play(&mut self, case: Case, whole: bool) -> io::Result<()> {
        self.held = 0;
        let mut force = case.force;
        let mut now = gauss_jackson::start(case.settings, case.t0, case.tf, case.r0, case.v0);
        for before in 0..ANSWERS {
            now = away::before_answer(case.away, before + 1, now);
            match now.outcome {
                Outcome::Ask(q) => {
                    if whole {
                        text::print_ask(&mut self.to, q)?;
                    }
                    let a = force.answer(q.t, q.r, q.v);
                    now = gauss_jackson::answer(now.run, q.number, a, 0, &mut self.samples);
                }
                Outcome::Done(s) => return self.finish_case(&case, s, whole),
                Outcome::Refused(e) => return text::print_refused(&mut self.to, e),
            }
        }
        Ok(())
    }

    // The end of a finished run, and before it the samples, unless only the end is wanted.
    fn finish_case(&mut self, case: &Case, s: Solution, whole: bool) -> io::Result<()> {
        self.held = stored(case, s.steps);
        if whole {
            self.print_samples()?;
        }
        text::print_done(&mut self.to, s)
    }

    fn print_samples(&mut self) -> io::Result<()> {
        for (n, numbers) in self
            .samples
            .chunks_exact(SAMPLE_WIDTH)
            .take(self.held / SAMPLE_WIDTH)
            .enumerate()
        {
            text::print_sample(&mut self.to, n, numbers)?;
        }
        Ok(())
    }
}
