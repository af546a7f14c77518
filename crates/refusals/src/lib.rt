// SPDX-License-Identifier: MIT OR Apache-2.0
// The refusals, by the names and numbers of documents 01 and 02. A call that may refuse answers a `Result` with one of them.
#![tactic(auto)]

ghost use Rattle.std.specs.Prelude.{◌≡◌};
ghost use Rattle.refusals.specs.Numbers.{number_of, number_told};

#[derive(Clone, Copy)]
pub enum Refusal {
    StepNotFinite,
    MaxStepsExceeded,
    NoDenseOutput,
    InterpOutOfBounds,
    Setting,
    SampleRoom,
    NoQuestion,
    NotThatQuestion,
    Shape,
    StoredShape,
    StoredContent,
    BlankDate,
    NotWhole,
    TooFewSteps,
    TooLow,
    InputLine,
}

impl From<Refusal> for u8 {
    ghost from_gives = { λ e n. n ≡ number_of e };

    // The number in 01's table; from 10 on in 02's.
    fn from(refusal: Refusal) -> u8 {
        match refusal {
            Refusal::StepNotFinite => 1,
            Refusal::MaxStepsExceeded => 2,
            Refusal::NoDenseOutput => 3,
            Refusal::InterpOutOfBounds => 4,
            Refusal::Setting => 5,
            Refusal::SampleRoom => 6,
            Refusal::NoQuestion => 7,
            Refusal::NotThatQuestion => 8,
            Refusal::Shape => 9,
            Refusal::StoredShape => 10,
            Refusal::StoredContent => 11,
            Refusal::BlankDate => 12,
            Refusal::NotWhole => 13,
            Refusal::TooFewSteps => 14,
            Refusal::TooLow => 15,
            Refusal::InputLine => 19,
        }
    }
}

// The refusal's number, and 0 where all was written.
pub fn number_told(told: Result<(), Refusal>) -> u8
    ensures { result ≡ number_told told }
{
    match told {
        Ok(()) => 0,
        Err(refusal) => u8::from(refusal),
    }
}
