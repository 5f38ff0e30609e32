// The book of a term: opening, the eight calls and the curve (paper 01).
#![tactic(auto)]

pub mod calls;
mod cancelling;
mod closing;
mod curve;
mod enrolling;
mod fits;
mod lent;
mod numbers;
mod offering;
pub mod opening;
mod ordering;
mod pairs;
mod pass;
mod periods;
mod phase;
pub mod places;
mod ranges;
mod sound;
mod standing;
mod taking;
mod trades;
mod whole;
mod withdrawing;
mod words;

use measures::Refusal;

// What a call that is done answers: the number given, or 0, and the count of rows. Paper 01 has the 0: "opening and the
// other calls 0".
#[derive(Clone, Copy, Debug, PartialEq, Eq)]
pub struct Done {
    pub number: u64,
    pub count: usize,
}

impl Done {
    // No number, and no rows.
    pub const NOTHING: Done = Done {
        number: 0,
        count: 0,
    };
}

// What a call answers.
pub type Answer = Result<Done, Refusal>;
