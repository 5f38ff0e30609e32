// The phases of a day: paper 01, "Units of measure and the book".
ghost use Rattle.book.specs.Inner.Phases.{PhaseOf};

use measures::Refusal;

// In the call phase orders wait; a clear begins the rolling phase. In memory these are 0 and 1. A phase is compared as the word that
// it is in memory, and held by no one: read as the enum first, it would be tested twice.
#[derive(Clone, Copy, Debug, PartialEq, Eq)]
pub(crate) enum Phase {
    Call = 0,
    Rolling = 1,
}

impl TryFrom<u64> for Phase {
    type Error = Refusal;

    ghost try_from_gives = { PhaseOf };

    fn try_from(number: u64) -> Result<Phase, Refusal> {
        match number {
            0 => Ok(Phase::Call),
            1 => Ok(Phase::Rolling),
            _ => Err(Refusal::UnsoundBook),
        }
    }
}
