// Offer (paper 01): "a unit, a partner or 0, a price, an amount for each period".
ghost use Rattle.std.specs.Prelude.{◌≡◌, ℕ, ◌+◌, ◌-◌, ◌*◌, ◌<◌, ◌≤◌, true, [], ◌∷◌, length, ◌≢◌, ◌++◌, drop, slice_set};
ghost use Rattle.measures.specs.Ranges.{most_energy};
ghost use Rattle.measures.specs.Sharing.{total};
ghost use Rattle.book.specs.Layout.{DAYS, GIVEN, UNITS, OFFERS, amount_place, word, decode, Aside};
ghost use Rattle.measures.specs.Refused.{refusal_of};
ghost use Rattle.book.specs.Refusals.{
  first_refusal,
  unknown_unit,
  unknown_partner,
  bad_price,
  bad_amounts,
  wrong_partner,
  offers_full,
  numbers_used,
  hour_misfit,
  term_misfit,
  volume_misfit,
};
ghost use Rattle.book.specs.Inner.Readable.{Readable};
ghost use Rattle.book.specs.Contract.{sound_in};
ghost use Rattle.book.specs.Offer.{offered, offer_checks, raising_amounts};

use crate::fits::misfit;
use crate::lent::{ReadableBook, SoundBook};
use crate::pass::Amounts;
use crate::places::{
    AMOUNT_WORDS, AMOUNTS, DAYS, GIVEN, HOURS, OFFER_TABLE, OFFER_WORDS, OFFERS, PARTNER, PRICE,
    TAKEN, UNIT, UNITS,
};
use crate::ranges::{price_in, sides_fit, unit_known};
use measures::{Price, Refusal, capped_total};

// What an offer says beside its number and its amounts; a partner of 0 is none, as in memory and in C.
#[derive(Clone, Copy)]
pub(crate) struct Offer {
    pub unit: u64,
    pub partner: u64,
    pub price: Price,
}

impl Offer {
    // How many stand open at most.
    pub const MOST: u64 = 8;

    // The numbers of a day, of offers and orders in one series.
    pub const NUMBERS: u64 = 65_535;

    // An offer of these terms: a maker, as paper 01 names it.
    pub(crate) fn fresh(unit: u64, partner: u64, price: Price) -> Offer
        ensures { (result.unit ≡ unit) × (result.partner ≡ partner) × (result.price.0 ≡ price.0) }
    {
        Offer {
            unit,
            partner,
            price,
        }
    }
}

// The checks of names, price and amounts.
#[tactic(auto, using(crate::proofs::Laws::Memory::RangeFacts::held, crate::proofs::Laws::Answer::MadeLaws::sound_readable), unfolding(crate::specs::Refusals::first_refusal))]
fn offer_terms(book: ReadableBook<'_>, offer: Offer, amounts: &[u64]) -> Result<(), Refusal>
    ensures { refusal_of result ≡ first_refusal (unknown_unit (decode book.entry.words.now) offer.unit
        ∷ unknown_partner (decode book.entry.words.now) offer.partner ∷ bad_price (decode book.entry.words.now) offer.price.0
        ∷ bad_amounts (decode book.entry.words.now) amounts.now ∷ []) }
{
    if !unit_known(book, offer.unit) {
        return Err(Refusal::UnknownName);
    }
    if book.words[UNITS] < offer.partner {
        return Err(Refusal::UnknownName);
    }
    if !price_in(book, offer.price) {
        return Err(Refusal::BadPrice);
    }
    if amounts.len() != HOURS * (book.words[DAYS] as usize) {
        return Err(Refusal::BadEnergy);
    }
    if !capped_total(amounts).can_be_declared() {
        return Err(Refusal::BadEnergy);
    }
    Ok(())
}

// The checks of sides and of room, for names that are known.
fn offer_room(book: ReadableBook<'_>, offer: Offer) -> Result<(), Refusal>
    requires { (1 ≤ offer.unit) × (offer.unit ≤ word book.words.now UNITS) × (offer.partner ≤ word book.words.now UNITS) }
    ensures { refusal_of result ≡ first_refusal (wrong_partner (decode book.entry.words.now) offer.unit offer.partner
        ∷ offers_full (decode book.entry.words.now) ∷ numbers_used (decode book.entry.words.now) ∷ []) }
{
    if !sides_fit(book, offer.unit, offer.partner) {
        return Err(Refusal::WrongParty);
    }
    if Offer::MOST <= book.words[OFFERS] {
        return Err(Refusal::TablesFull);
    }
    if Offer::NUMBERS <= book.words[GIVEN] {
        return Err(Refusal::NumbersUsed);
    }
    Ok(())
}

// The amounts, copied to the front of a list that has room for them; a copy into the book is said by the book's places
// (`put_amounts`).
fn copy_amounts(amounts: &[u64], copy: &mut [u64])
    requires { length amounts.now ≤ length copy.old }
    ensures { copy.new ≡ amounts.now ++ drop (length amounts.now) copy.old }
{
    copy[..amounts.len()].copy_from_slice(amounts);
}

// Whether the amounts fit the unit's limits. That there are as many as periods ties them to a book, and stays a clause.
fn offer_fit(book: SoundBook<'_>, unit: u64, amounts: &[u64]) -> Result<(), Refusal>
    requires { (1 ≤ unit) × (unit ≤ word book.words.now UNITS) × (length amounts.now ≡ 24 * word book.words.now DAYS)
        × (total amounts.now ≤ most_energy) }
    ensures { refusal_of result ≡ first_refusal (hour_misfit (decode book.entry.words.now) unit (raising_amounts amounts.now)
        ∷ term_misfit (decode book.entry.words.now) unit (raising_amounts amounts.now)
        ∷ volume_misfit (decode book.entry.words.now) unit (raising_amounts amounts.now) ∷ []) }
{
    let mut declared = Amounts {
        raising: [0; 744],
        lowering: [0; 744],
    };
    copy_amounts(amounts, &mut declared.raising);
    misfit(book, unit, &mut declared)
}

// The checks of an offer behind that of soundness.
pub(crate) fn offer_checks(
    book: SoundBook<'_>,
    offer: Offer,
    amounts: &[u64],
) -> Result<(), Refusal>
    ensures { refusal_of result ≡ first_refusal (offer_checks (decode book.entry.words.now) offer.unit offer.partner offer.price.0
        amounts.now) }
{
    let readable = ReadableBook { words: book.words };
    offer_terms(readable, offer, amounts)?;
    offer_room(readable, offer)?;
    offer_fit(book, offer.unit, amounts)
}

// The amounts of the offer at place j.
fn put_amounts(book: &mut [u64], j: usize, amounts: &[u64])
    requires { (Readable book.old) × (j < 8) × (length amounts.now ≡ 24 * word book.old DAYS) }
    ensures { ((p : ℕ) → p < 24 * word book.old DAYS → word book.new (amount_place j p) ≡ word amounts.now p)
        × ((i : ℕ) → ((p : ℕ) → p < 24 * word book.old DAYS → i ≢ amount_place j p) → word book.new i ≡ word book.old i) }
{
    let from = AMOUNTS + AMOUNT_WORDS * j;
    // one by one: a copy between two slices that are both lent is a call of `memmove`, a name that the archive asks for nowhere else
    for (p, amount) in amounts.iter().enumerate() {
        book[from + p] = *amount;
    }
}

// The words of an offer beside its amounts, of which nothing is taken; the first stands at `at`.
fn put_words(book: &mut [u64], at: usize, number: u64, offer: Offer)
    requires { at + 8 ≤ length book.old }
    ensures { book.new ≡ slice_set (slice_set (slice_set (slice_set (slice_set book.old at number) (at + UNIT) offer.unit)
        (at + PARTNER) offer.partner) (at + PRICE) offer.price.0) (at + TAKEN) 0 }
{
    book[at] = number;
    book[at + UNIT] = offer.unit;
    book[at + PARTNER] = offer.partner;
    book[at + PRICE] = offer.price.0;
    book[at + TAKEN] = 0;
}

// One offer more stands behind the others, under the next number.
#[tactic(auto, using(crate::proofs::Laws::Answer::MadeLaws::sound_readable))]
pub(crate) fn offer_effect(book: &mut [u64], offer: Offer, amounts: &[u64]) -> u64
    requires { (sound_in book.old ≡ true) × (word book.old OFFERS < 8) × (length amounts.now ≡ 24 * word book.old DAYS) }
    ensures number { result ≡ word book.old GIVEN + 1 }
    ensures book { (decode book.new
        ≡ offered (decode book.old) offer.unit offer.partner offer.price.0 amounts.now)
        × (Aside book.old book.new) }
{
    let j = book[OFFERS] as usize;
    let number = book[GIVEN] + 1;
    put_amounts(book, j, amounts);
    put_words(book, OFFER_TABLE + OFFER_WORDS * j, number, offer);
    book[OFFERS] = j as u64 + 1;
    book[GIVEN] = number;
    number
}
