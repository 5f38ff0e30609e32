// Energy and price, and sharing an amount: paper 01, "Units of measure and the book" and "Sharing an amount".
#![tactic(auto)]

mod refusals;
mod sharing;

ghost use Rattle.std.specs.Prelude.{◌≡◌, ◌+◌, ◌*◌, ◌-◌, ◌/◌, min, leb};
ghost use Rattle.measures.specs.Ranges.{between, most_energy, most_price, most_number};
ghost use Rattle.measures.specs.Sharing.{total, less_each, sharing, Is};
ghost use Rattle.measures.specs.Refused.{refusal_of};

pub use refusals::{Refusal, refusal_number};

// Energy in whole kWh.
#[derive(Clone, Copy, Debug, PartialEq, Eq, PartialOrd, Ord)]
pub struct Energy(pub u64);

// Price in thousandths of a yuan per MWh.
#[derive(Clone, Copy, Debug, PartialEq, Eq, PartialOrd, Ord)]
pub struct Price(pub u64);

impl Energy {
    // The largest quantity, total or asset energy.
    pub const MOST: u64 = 4_000_000_000;

    // Whether this is at most Energy::MOST.
    pub fn in_range(self) -> bool
        ensures { result ≡ leb self.0 most_energy }
    {
        self.0 <= Energy::MOST
    }

    // Whether this can be declared: it is neither nothing nor more than Energy::MOST.
    pub fn can_be_declared(self) -> bool
        ensures { result ≡ between 1 most_energy self.0 }
    {
        (1..=Energy::MOST).contains(&self.0)
    }

    // Six fifths of this, rounded down; of anything above Energy::MOST, six fifths of Energy::MOST.
    pub fn six_fifths(self) -> Energy
        ensures { result.0 ≡ min self.0 most_energy * 6 / 5 }
    {
        Energy(self.0.min(Energy::MOST) * 6 / 5)
    }

    // Both amounts together; at most the largest number.
    pub fn plus(self, other: Energy) -> Energy
        ensures { result.0 ≡ min (self.0 + other.0) most_number }
    {
        Energy(self.0.saturating_add(other.0))
    }

    // What is left of this when `other` is taken off: nothing, where that is more.
    pub fn minus(self, other: Energy) -> Energy
        ensures { result.0 ≡ self.0 - other.0 }
    {
        Energy(self.0.saturating_sub(other.0))
    }
}

// The number of kWh.
impl From<Energy> for u64 {
    ghost from_gives = { λ energy kwh. kwh ≡ energy.0 };

    fn from(energy: Energy) -> u64 {
        energy.0
    }
}

impl Price {
    // The largest ceiling of a book.
    pub const MOST: u64 = 10_000_000;

    // Whether this is at most Price::MOST.
    pub fn in_range(self) -> bool
        ensures { result ≡ leb self.0 most_price }
    {
        self.0 <= Price::MOST
    }

    // Whether a buy at this price meets a sale at `sale`.
    pub fn meets(self, sale: Price) -> bool
        ensures { result ≡ leb sale.0 self.0 }
    {
        sale <= self
    }

    // The price between a bid at this price and an ask, rounded up.
    pub fn middle(self, ask: Price) -> Price
        ensures { result.0 ≡ (self.0 + ask.0 + 1) / 2 }
    {
        Price(self.0 / 2 + ask.0 / 2 + (self.0 % 2 + ask.0 % 2 + 1) / 2)
    }

    // The next higher price; at most the largest number.
    pub fn next(self) -> Price
        ensures { result.0 ≡ min (self.0 + 1) most_number }
    {
        Price(self.0.saturating_add(1))
    }
}

// The sum of the amounts, or one more than Energy::MOST where it is more than that: out of range, as `in_range` and `can_be_declared`
// tell. An `Option` would be asked beside them.
pub fn capped_total(amounts: &[u64]) -> Energy
    ensures { result.0 ≡ min (total amounts.now) (most_energy + 1) }
{
    // what is left up to the most falls by each amount: one subtraction for each
    let mut room = Energy(Energy::MOST);
    for r in amounts {
        let amount = Energy(*r);
        if amount > room {
            return Energy(Energy::MOST + 1);
        }
        room = room.minus(amount);
    }
    Energy(Energy::MOST).minus(room)
}

// Shares an amount over the remaining amounts, into the first parts: `FewRows` where fewer parts than amounts are lent, `BadEnergy`
// where the amount is 0 or above the remaining amounts' sum, or that sum above Energy::MOST. A refusal changes nothing.
pub fn share(amount: Energy, amounts: &[u64], parts: &mut [u64]) -> Result<(), Refusal>
    ensures { Is (sharing amount.0 amounts.now parts.old) (refusal_of result) parts.new }
{
    if parts.len() < amounts.len() {
        return Err(Refusal::FewRows);
    }
    if amount == Energy(0) {
        return Err(Refusal::BadEnergy);
    }
    let whole = capped_total(amounts);
    if !whole.in_range() {
        return Err(Refusal::BadEnergy);
    }
    if whole < amount {
        return Err(Refusal::BadEnergy);
    }
    crate::sharing::write_parts(amount.0, whole.0, amounts, parts);
    Ok(())
}

// Leaves each amount less its part, where it stands: nothing, where that is more. Amounts without a part stay.
pub fn take_off(amounts: &mut [u64], parts: &[u64])
    ensures { amounts.new ≡ less_each amounts.old parts.now }
{
    // By index: `amounts.iter_mut().zip(parts)` was tried, and of what is written through it a proof knows the length alone.
    for i in 0..amounts.len().min(parts.len()) {
        let left = Energy(amounts[i]).minus(Energy(parts[i]));
        amounts[i] = left.0;
    }
}

// `share` on plain numbers, for Rust and C.
#[unsafe(no_mangle)]
pub extern "C" fn cenduxari_share(amount: u64, amounts: &[u64], parts: &mut [u64]) -> u64
    ensures { Is (sharing amount amounts.now parts.old) result parts.new }
{
    refusal_number(&share(Energy(amount), amounts, parts))
}
