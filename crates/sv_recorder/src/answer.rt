ghost use Rattle.std.specs.Prelude.{◌≡◌};

use sv_journal::Outcome;

/// What became of a step.
#[derive(Debug, Clone, Copy, PartialEq, Eq, Drop)]
pub enum Answer {
    /// Its packet is stored.
    Sent,
    /// Its packet found no room, or the overflow before it found none.
    Refused,
    /// The recorder is off.
    Ignored,
    /// It was a start or a stop.
    Ran,
}

impl Answer {
    ghost use Rattle.sv_recorder.specs.Answer.{answer_of};

    /// What became of a step whose call has this outcome.
    #[inline(always)]
    pub(crate) fn of(outcome: Outcome) -> Answer
        ensures { result ≡ answer_of outcome }
    {
        match outcome {
            Outcome::Stored => Answer::Sent,
            Outcome::Refused => Answer::Refused,
            Outcome::Ignored => Answer::Ignored,
            Outcome::Handled => Answer::Ran,
        }
    }
}
