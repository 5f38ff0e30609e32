// Take: its checks behind that of soundness, and its effect (paper 01, "The eight calls").
ghost use Rattle.std.specs.Prelude.{◌≡◌, ◌+◌, ◌-◌, ◌*◌, ◌<◌, ◌≤◌, ◌++◌, ◌==◌};
ghost use Rattle.std.specs.Prelude.{ℕ, true, List, length, take, drop, if◌then◌else◌, nat_eq, slice_index, not, IfOk};
ghost use Rattle.measures.specs.Ranges.{most_energy};
ghost use Rattle.measures.specs.Lists.{keep, table};
ghost use Rattle.matching.specs.Memory.{way_number};
ghost use Rattle.measures.specs.Sharing.{total};
ghost use Rattle.limits.specs.Units.{periods};
ghost use Rattle.book.specs.Book.{with_offers};
ghost use Rattle.book.specs.Take.{take_checks, take_rows_from, take_rows};
ghost use Rattle.measures.specs.Refused.{refusal_of};
ghost use Rattle.book.specs.Refusals.{first_refusal};
ghost use Rattle.book.specs.Layout.{DAYS, UNITS, OFFERS, offer_place, UNIT, word, amount_at, offer_at, decode, Aside};
ghost use Rattle.book.specs.Inner.Readable.{Readable};
ghost use Rattle.book.specs.Contract.{sound_in};
ghost use Rattle.book.specs.Inner.RowsIn.{takes, party_checks, OpenAt, Nothing, parts_at, TakeFit, TakeChecked, RowsPut, AmountsLess, OfferLessened, PartsLent, TakeMade};

use crate::fits::misfit;
use crate::lent::{ReadableBook, SoundBook};
use crate::numbers::find_offer;
use crate::pass::Amounts;
use crate::places::{
    AMOUNT_WORDS, AMOUNTS, DAYS, HOURS, OFFER_TABLE, OFFER_WORDS, PARTNER, PRICE, ROOM_FOR_ROWS,
    TAKEN, UNIT,
};
use crate::ranges::{is_generator, offer_total, unit_known};
use crate::trades::book_rows;
use crate::withdrawing::withdraw_effect;
use matching::orders::{Row, Way, put_row};
use measures::{Energy, Price, Refusal};

// What a take asks for.
#[derive(Clone, Copy)]
pub(crate) struct Claim {
    pub unit: u64,
    pub number: u64,
    pub quantity: Energy,
}

// Where an open offer stands, and what its amounts come to.
#[derive(Clone, Copy)]
pub(crate) struct OpenOffer {
    pub place: usize,
    pub total: Energy,
}

// What the rows of a take have in common.
#[derive(Clone, Copy)]
struct Deal {
    way: Way,
    seller: u64,
    buyer: u64,
    price: Price,
}

// Whether a unit can take what it asks for of an open offer.
fn can_take(book: ReadableBook<'_>, offer: OpenOffer, claim: Claim) -> bool
    requires { (offer.place < 8) × (1 ≤ word book.words.now (offer_place offer.place + UNIT))
        × (word book.words.now (offer_place offer.place + UNIT) ≤ word book.words.now UNITS)
        × (1 ≤ claim.unit) × (claim.unit ≤ word book.words.now UNITS)
        × (offer.total.0 ≡ total (table (periods (word book.words.now DAYS)) (amount_at book.words.now offer.place))) }
    ensures { result ≡ takes book.entry.words.now offer.place claim.unit claim.quantity.0 }
{
    if offer.total < claim.quantity {
        return false;
    }
    let at = OFFER_TABLE + OFFER_WORDS * offer.place;
    let partner = book.words[at + PARTNER];
    if partner != 0 {
        if partner != claim.unit {
            return false;
        }
        return offer.total <= claim.quantity;
    }
    let own = is_generator(book, book.words[at + UNIT]);
    let other = is_generator(book, claim.unit);
    own != other
}

// The checks of a take before its fit; where none applies, the offer of the number.
#[tactic(auto, using(crate::proofs::Laws::Memory::RangeFacts::held), unfolding(crate::specs::Refusals::first_refusal, crate::specs::Inner::RowsIn::party_checks))]
fn take_party(book: SoundBook<'_>, claim: Claim, lent: usize) -> Result<OpenOffer, Refusal>
    ensures offer { IfOk result (λ offer. OpenAt book.entry.words.now claim.number offer.place offer.total.0) }
    ensures refusal { refusal_of result ≡ first_refusal (party_checks (decode book.entry.words.now) claim.unit claim.number claim.quantity.0
        lent) }
{
    let book = ReadableBook { words: book.words };
    if !unit_known(book, claim.unit) {
        return Err(Refusal::UnknownName);
    }
    if lent < ROOM_FOR_ROWS {
        return Err(Refusal::FewRows);
    }
    if !claim.quantity.can_be_declared() {
        return Err(Refusal::BadEnergy);
    }
    let Some(place) = find_offer(book, claim.number) else {
        return Err(Refusal::NoSuchNumber);
    };
    let total = offer_total(book, place);
    let offer = OpenOffer { place, total };
    if !can_take(book, offer, claim) {
        return Err(Refusal::WrongParty);
    }
    Ok(offer)
}

// The parts of a quantity over the amounts of the offer at place j, where they stand.
fn share_offer(book: ReadableBook<'_>, j: usize, quantity: Energy, parts: &mut [u64])
    requires { (j < 8) × (1 ≤ quantity.0) × (quantity.0 ≤ total (table (periods (word book.words.now DAYS)) (amount_at book.words.now j)))
        × (total (table (periods (word book.words.now DAYS)) (amount_at book.words.now j)) ≤ most_energy) × (744 ≤ length parts.old) }
    ensures { parts.new ≡ parts_at book.entry.words.now j quantity.0 ++ drop (periods (word book.entry.words.now DAYS)) parts.old }
{
    let from = AMOUNTS + AMOUNT_WORDS * j;
    let to = from + HOURS * (book.words[DAYS] as usize);
    // the amounts and the room are as it asks, so it refuses nothing
    let _ = measures::share(quantity, &book.words[from..to], parts);
}

// The fit of a take from the offer at place j; its parts go to the lent memory, which holds nothing and has room
// for the longest term, as memory is fixed.
fn take_fit(
    book: SoundBook<'_>,
    j: usize,
    claim: Claim,
    parts: &mut [u64; 744],
) -> Result<(), Refusal>
    requires { (j < word book.words.now OFFERS) × (1 ≤ claim.unit) × (claim.unit ≤ word book.words.now UNITS) × (1 ≤ claim.quantity.0)
        × (claim.quantity.0 ≤ total (table (periods (word book.words.now DAYS)) (amount_at book.words.now j))) × (Nothing parts.old) }
    ensures { TakeFit book.entry.words.now claim.unit j claim.quantity.0 (refusal_of result) parts.old parts.new }
{
    share_offer(ReadableBook { words: book.words }, j, claim.quantity, parts);
    let mut declared = Amounts {
        raising: *parts,
        lowering: [0; 744],
    };
    misfit(book, claim.unit, &mut declared)
}

// The checks of a take behind that of soundness; where none applies, the offer of the number, and the parts go to the lent memory.
pub(crate) fn take_checks(
    book: SoundBook<'_>,
    claim: Claim,
    lent: usize,
    parts: &mut [u64; 744],
) -> Result<OpenOffer, Refusal>
    requires { Nothing parts.old }
    ensures offer { IfOk result (λ offer. OpenAt book.entry.words.now claim.number offer.place offer.total.0) }
    ensures checked { TakeChecked book.entry.words.now claim.unit claim.number claim.quantity.0 lent (refusal_of result) parts.old parts.new }
{
    let offer = take_party(book, claim, lent)?;
    take_fit(book, offer.place, claim, parts)?;
    Ok(offer)
}

// A row for each part that is not 0, periods rising. Their count is answered, so it is kept beside the walk: a second `enumerate`
// would tell it inside of the loop alone.
fn write_rows(parts: &[u64], rows: &mut [u64], deal: Deal) -> usize
    requires { (length parts.now ≤ 744) × (4464 ≤ length rows.old) }
    ensures { RowsPut rows.old rows.new result (take_rows_from 0 (way_number deal.way) deal.seller deal.buyer deal.price.0 parts.now) }
{
    let mut k: usize = 0;
    for (p, part) in parts
        .iter()
        .enumerate()
        .filter(|(_, part)| Energy(**part) != Energy(0))
    {
        let row = Row {
            way: u64::from(deal.way),
            period: p as u64,
            seller: deal.seller,
            buyer: deal.buyer,
            quantity: Energy(*part),
            price: deal.price,
        };
        // there is room for 744 rows, so it is written
        put_row(rows, k, row);
        k += 1;
    }
    k
}

// Each amount of the offer at place j is left less its part, where it stands.
fn lessen_amounts(book: &mut [u64], j: usize, parts: &[u64])
    requires { (Readable book.old) × (j < 8) }
    ensures { AmountsLess book.old book.new j parts.now }
{
    let from = AMOUNTS + AMOUNT_WORDS * j;
    let to = from + HOURS * (book[DAYS] as usize);
    measures::take_off(&mut book[from..to], parts);
}

// The parts are taken off the offer at place j, which stays.
fn lessen_offer(book: &mut [u64], j: usize, parts: &[u64])
    requires { (Readable book.old) × (j < word book.old OFFERS) }
    ensures { (ps : List ℕ) → ((p : ℕ) → p < 24 * word book.old DAYS → slice_index parts.now p ≡ slice_index ps p)
        → OfferLessened book.old book.new j ps }
{
    lessen_amounts(book, j, parts);
    book[OFFER_TABLE + OFFER_WORDS * j + TAKEN] = 1;
}

// The way of a take: an offer without a partner is a listing.
fn way_of(partner: u64) -> Way
    ensures { way_number result ≡ (if nat_eq partner 0 then 2 else 1) }
{
    if partner == 0 {
        return Way::Listing;
    }
    Way::Bilateral
}

// The rows of a take by a unit from the offer at place j.
fn take_rows(book: ReadableBook<'_>, unit: u64, j: usize, parts: &[u64], rows: &mut [u64]) -> usize
    requires { (j < 8) × (1 ≤ word book.words.now (offer_place j + UNIT))
        × (word book.words.now (offer_place j + UNIT) ≤ word book.words.now UNITS) × (744 ≤ length parts.now) × (4464 ≤ length rows.old) }
    ensures { RowsPut rows.old rows.new result
        (take_rows (decode book.entry.words.now) (offer_at book.entry.words.now (word book.entry.words.now DAYS) j) unit
        (take (24 * word book.entry.words.now DAYS) parts.now)) }
{
    let top = HOURS * (book.words[DAYS] as usize);
    let at = OFFER_TABLE + OFFER_WORDS * j;
    let owner = book.words[at + UNIT];
    let price = Price(book.words[at + PRICE]);
    let way = way_of(book.words[at + PARTNER]);
    // the side was asked by the check of a listing alone
    let (seller, buyer) = if is_generator(book, owner) {
        (owner, unit)
    } else {
        (unit, owner)
    };
    let deal = Deal {
        way,
        seller,
        buyer,
        price,
    };
    write_rows(&parts[..top], rows, deal)
}

// Takes the parts of a quantity off an open offer; where they are all that it has, it goes.
fn leave_offer(book: &mut [u64], offer: OpenOffer, quantity: Energy, parts: &[u64])
    requires { (sound_in book.old ≡ true) × (offer.place < word book.old OFFERS) }
    ensures gone { offer.total.0 ≤ quantity.0 → (decode book.new ≡ with_offers (decode book.old)
        (keep (λ o. not (o.number == word book.old (offer_place offer.place))) (decode book.old).offers)) × (Aside book.old book.new) }
    ensures left { quantity.0 < offer.total.0 → (ps : List ℕ)
        → ((p : ℕ) → p < 24 * word book.old DAYS → slice_index parts.now p ≡ slice_index ps p)
        → OfferLessened book.old book.new offer.place ps }
{
    if offer.total <= quantity {
        return withdraw_effect(book, offer.place);
    }
    lessen_offer(book, offer.place, parts);
}

// A take of an open offer, with the parts that its checks wrote.
pub(crate) fn take_effect(
    book: &mut [u64],
    offer: OpenOffer,
    claim: Claim,
    parts: &[u64; 744],
    rows: &mut [u64],
) -> usize
    requires { (sound_in book.old ≡ true) × (OpenAt book.old claim.number offer.place offer.total.0)
        × (0 ≡ first_refusal (take_checks (decode book.old) claim.unit claim.number claim.quantity.0 (length rows.old)))
        × (PartsLent book.old claim.number claim.quantity.0 parts.now) }
    ensures { TakeMade book.old book.new claim.unit claim.number claim.quantity.0 rows.old rows.new result }
{
    let readable = ReadableBook { words: book };
    let count = take_rows(readable, claim.unit, offer.place, parts, rows);
    leave_offer(book, offer, claim.quantity, parts);
    book_rows(book, rows, count);
    count
}
