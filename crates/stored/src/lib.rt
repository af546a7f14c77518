// SPDX-License-Identifier: MIT OR Apache-2.0
// A run put away and taken up again (W-201): its content as words, and the two calls. The blocks are in `blocks`.
#![tactic(auto)]

ghost use Rattle.std.specs.Prelude.{◌≡◌};
ghost use Rattle.stored.specs.Stored.{storing, stored_in, read_run, loaded};

use gauss_jackson::{Answered, Outcome};
use refusals::Refusal;
use run::{Run, sound};

mod content;
mod judging;
mod layout;
mod triples;

// The run as a stored form in `out`: 7, then 10, and then `out` is untouched.
#[tactic(auto, unfolding(crate::specs::Stored::storing, crate::specs::Stored::stored_in))]
pub fn store(run: Run, out: &mut [u8]) -> Result<(), Refusal>
    ensures value { result ≡ storing run out.old }
    ensures out_after { out.new ≡ stored_in run out.old }
{
    if !sound::is_sound(run) {
        return Err(Refusal::NoQuestion);
    }
    let words = content::content_of_run(run);
    blocks::write_to(&words, out).ok_or(Refusal::StoredShape)
}

// The run of a stored form; or 10, then 11.
#[tactic(auto, using(blocks::proofs::Whole::whole_taken), unfolding(crate::specs::Stored::read_run, crate::specs::Taken::is_stored_run))]
fn read_run(bytes: &[u8]) -> Result<Run, Refusal>
    ensures { result ≡ read_run bytes.now }
{
    let mut words = [0u32; 504];
    if !blocks::read_into(bytes, &mut words) {
        return Err(Refusal::StoredShape);
    }
    if !judging::is_known(&words) {
        return Err(Refusal::StoredContent);
    }
    let run = judging::run_of(&words);
    if judging::is_unused_zero(&words, run.mark) && sound::is_sound(run) {
        Ok(run)
    } else {
        Err(Refusal::StoredContent)
    }
}

// The run of a stored form with its open question; or 10, then 11, and then `held`, the run that the caller has, comes back as it was.
#[tactic(auto, unfolding(crate::specs::Stored::read_run, crate::specs::Stored::loaded, crate::specs::Stored::judged, crate::specs::Stored::taken_up, gauss_jackson::specs::Answers::refusing))]
pub fn load(held: Run, bytes: &[u8]) -> Answered
    ensures { result ≡ loaded held bytes.now }
{
    match read_run(bytes) {
        Ok(run) => Answered {
            run,
            outcome: gauss_jackson::open_question(run),
            stored: 0,
        },
        Err(refusal) => Answered {
            run: held,
            outcome: Outcome::Refused(refusal),
            stored: 0,
        },
    }
}
