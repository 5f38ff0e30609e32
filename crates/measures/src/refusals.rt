// The refusals of paper 01's table, by place of check.
ghost use Rattle.std.specs.Prelude.{◌≡◌};
ghost use Rattle.measures.specs.Refused.{number_of, refusal_of};

// Why a call is refused.
#[derive(Clone, Copy, Debug, PartialEq, Eq)]
pub enum Refusal {
    UnsoundBook = 1,
    BadOpening = 2,
    BadKind = 3,
    BadSize = 4,
    UnitsFull = 5,
    UnknownName = 6,
    FewRows = 7,
    BadPrice = 8,
    BadEnergy = 9,
    BadPeriod = 10,
    NoSuchNumber = 11,
    WrongParty = 12,
    AfterTake = 13,
    ClearInRolling = 14,
    OtherDirection = 15,
    TwoOpen = 16,
    TablesFull = 17,
    NumbersUsed = 18,
    HourMisfit = 19,
    TermMisfit = 20,
    VolumeMisfit = 21,
}

impl From<Refusal> for u64 {
    ghost from_gives = { λ refusal number. number ≡ number_of refusal };

    fn from(refusal: Refusal) -> u64 {
        refusal as u64
    }
}

// The number of a refusal, or 0, for those who call from another language.
pub fn refusal_number<T>(answer: &Result<T, Refusal>) -> u64
    ensures { result ≡ refusal_of answer.now }
{
    match answer {
        Ok(_) => 0,
        Err(refusal) => u64::from(*refusal),
    }
}
