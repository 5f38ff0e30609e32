// The limits of a unit: paper 01, "Limits".
#![tactic(auto)]

ghost use Rattle.std.specs.Prelude.{◌≡◌, ◌≤◌, IfOk};
ghost use Rattle.measures.specs.Ranges.{most_energy};
ghost use Rattle.measures.specs.Refused.{refusal_of};
ghost use Rattle.limits.specs.Units.{most_capacity, most_days, days_in, period_in, generator};
ghost use Rattle.limits.specs.Kinds.{kind_number, KindOf, unit_refusal};
ghost use Rattle.limits.specs.Answers.{answer_of};
ghost use Rattle.limits.specs.Limits.{limits_at, hour_limit, term_limit, volume_limit};

use measures::{Energy, Refusal, refusal_number};

// The kinds of units: two of generators, two of loads.
#[derive(Clone, Copy, Debug, PartialEq, Eq)]
pub enum Kind {
    Solar = 1,
    Generator = 2,
    User = 3,
    Retailer = 4,
}

impl TryFrom<u64> for Kind {
    type Error = Refusal;

    ghost try_from_gives = { KindOf };

    fn try_from(number: u64) -> Result<Kind, Refusal> {
        match number {
            1 => Ok(Kind::Solar),
            2 => Ok(Kind::Generator),
            3 => Ok(Kind::User),
            4 => Ok(Kind::Retailer),
            _ => Err(Refusal::BadKind),
        }
    }
}

impl Kind {
    // Whether it is a generator's.
    pub fn is_generator(self) -> bool
        ensures { result ≡ generator (kind_number self) }
    {
        matches!(self, Kind::Solar | Kind::Generator)
    }

    // The hour limit: a solar generator's is 0 outside hours 6 to 19.
    #[tactic(auto, unfolding(crate::specs::Limits::hour_limit))]
    pub fn hour_limit(self, capacity: u64, hour: u64) -> Energy
        ensures { result.0 ≡ hour_limit (kind_number self) capacity hour }
    {
        match self {
            Kind::Solar => match hour {
                6..=19 => Energy(capacity),
                _ => Energy(0),
            },
            _ => Energy(capacity),
        }
    }

    // The term limit.
    #[tactic(auto, unfolding(crate::specs::Limits::term_limit))]
    fn term_limit(self, capacity: u64, asset: Energy, days: u64) -> Energy
        requires { (capacity ≤ most_capacity) × (days ≤ most_days) }
        ensures { result.0 ≡ term_limit (kind_number self) capacity asset.0 days }
    {
        match self {
            Kind::Solar => Energy(capacity * 10 * days),
            Kind::Retailer => Energy(capacity * 24 * days).min(asset),
            _ => Energy(capacity * 24 * days),
        }
    }

    // The volume limit of a unit of this term limit.
    #[tactic(auto, unfolding(crate::specs::Limits::volume_limit))]
    fn volume_limit(self, term: Energy) -> Energy
        requires { term.0 ≤ most_energy }
        ensures { result.0 ≡ volume_limit (kind_number self) term.0 }
    {
        if self.is_generator() {
            return term.six_fifths();
        }
        term
    }
}

// A unit as it is named for enrolment; its fields may be any numbers.
#[derive(Clone, Copy, Debug, PartialEq, Eq)]
pub struct Unit {
    pub kind: u64,
    pub capacity: u64,
    pub asset: Energy,
}

impl Unit {
    // How many a book has at most.
    pub const MOST: u64 = 64;

    // The largest capacity, in kW.
    pub const MOST_CAPACITY: u64 = 5_000_000;

    // A unit of these fields: a maker, as paper 01 names it.
    pub fn fresh(kind: u64, capacity: u64, asset: Energy) -> Unit
        ensures { (result.kind ≡ kind) × (result.capacity ≡ capacity) × (result.asset.0 ≡ asset.0) }
    {
        Unit {
            kind,
            capacity,
            asset,
        }
    }

    // Its kind, where its fields are in their ranges.
    pub fn checked(self) -> Result<Kind, Refusal>
        ensures refusal { refusal_of result ≡ unit_refusal self.kind self.capacity self.asset.0 }
        ensures kind { IfOk result (λ kind. kind_number kind ≡ self.kind) }
    {
        let kind = Kind::try_from(self.kind)?;
        if !(1..=Unit::MOST_CAPACITY).contains(&self.capacity) || !self.asset.in_range() {
            return Err(Refusal::BadSize);
        }
        Ok(kind)
    }

    // The hour limit, where its kind may be any number. No function here calls it: it is public, and promises what it promised.
    #[tactic(auto, unfolding(crate::specs::Limits::hour_limit))]
    pub fn hour_limit(self, hour: u64) -> Energy
        ensures { result.0 ≡ hour_limit self.kind self.capacity hour }
    {
        match Kind::try_from(self.kind) {
            Ok(kind) => kind.hour_limit(self.capacity, hour),
            Err(_) => Energy(self.capacity),
        }
    }
}

// The days of a term.
#[derive(Clone, Copy, Debug, PartialEq, Eq)]
pub struct Term(pub u64);

impl Term {
    // The longest term, in days.
    pub const MOST: u64 = 31;

    // Whether there is such a term.
    pub fn in_range(self) -> bool
        ensures { result ≡ days_in self.0 }
    {
        (1..=Term::MOST).contains(&self.0)
    }

    // Whether a period is of the term. The period is divided, since 24 times any number of days could overflow.
    pub fn has(self, period: u64) -> bool
        ensures { result ≡ period_in self.0 period }
    {
        period / 24 < self.0
    }
}

// The limits of a unit in a period.
#[derive(Clone, Copy, Debug, PartialEq, Eq)]
pub struct Limits {
    pub hour: Energy,
    pub term: Energy,
    pub volume: Energy,
}

// The hour, term and volume limit of a unit in a period of a term.
#[tactic(auto, using(crate::proofs::LimitLaws::term_bounds), unfolding(crate::specs::Limits::limits_at))]
pub fn unit_limits(term: Term, unit: Unit, period: u64) -> Result<Limits, Refusal>
    ensures { answer_of result ≡ limits_at term.0 unit.kind unit.capacity unit.asset.0 period }
{
    if !term.in_range() {
        return Err(Refusal::BadOpening);
    }
    let kind = unit.checked()?;
    if !term.has(period) {
        return Err(Refusal::BadPeriod);
    }
    let whole = kind.term_limit(unit.capacity, unit.asset, term.0);
    Ok(Limits {
        hour: kind.hour_limit(unit.capacity, period % 24),
        term: whole,
        volume: kind.volume_limit(whole),
    })
}

// The three limits of an answer, or zeros, as numbers for C.
fn values_of(answer: &Result<Limits, Refusal>) -> [u64; 3]
    ensures { result ≡ (answer_of answer.now).values }
{
    match answer {
        Ok(limits) => [
            u64::from(limits.hour),
            u64::from(limits.term),
            u64::from(limits.volume),
        ],
        Err(_) => [0; 3],
    }
}

// `unit_limits` on plain numbers, for Rust and C: the number is returned, and the three limits are written.
#[unsafe(no_mangle)]
pub extern "C" fn cenduxari_limits(
    days: u64,
    kind: u64,
    capacity: u64,
    asset: u64,
    period: u64,
    out: &mut [u64; 3],
) -> u64
    ensures { (result ≡ (limits_at days kind capacity asset period).number) × (out.new ≡ (limits_at days kind capacity asset period).values) }
{
    let unit = Unit::fresh(kind, capacity, Energy(asset));
    let limits = unit_limits(Term(days), unit, period);
    *out = values_of(&limits);
    refusal_number(&limits)
}
