// Whether the figures of a book's memory lie in their ranges, and declarations name enrolled units: paper 01, "A book is sound if".
ghost use Rattle.std.specs.Prelude.{◌≡◌, ℕ, Bool, ◌+◌, ◌-◌, ◌*◌, ◌<◌, ◌≤◌, min, length, if◌then◌else◌};
ghost use Rattle.measures.specs.Ranges.{between, most_energy};
ghost use Rattle.measures.specs.Lists.{table, all, every};
ghost use Rattle.measures.specs.Sharing.{total};
ghost use Rattle.limits.specs.Units.{periods, generator};
ghost use Rattle.matching.specs.Memory.{direction_number, order_at};
ghost use Rattle.book.specs.Book.{known, unit_of};
ghost use Rattle.book.specs.Sound.{prices_in, head_in, offer_in, order_in};
ghost use Rattle.book.specs.Layout.{DAYS, unit_place, CAPACITY, ASSET, FLOOR, CEILING, GIVEN, UNITS, word, amount_at, offer_at, orders_part, decode};
ghost use Rattle.book.specs.Inner.Readable.{unit_fields_in, units_fields_in, sides_in};

use crate::lent::ReadableBook;
use crate::offering::Offer;
use crate::phase::Phase;
use crate::places::{
    AMOUNT_WORDS, AMOUNTS, ASSET, CAPACITY, CEILING, DAYS, DIRECTION, FLOOR, GIVEN, HOURS,
    OFFER_TABLE, OFFER_WORDS, OFFERS, ORDER_TABLE, ORDER_WORDS, ORDERS, PARTNER, PERIOD, PHASE,
    PRICE, QUANTITY, TAKEN, UNIT, UNIT_TABLE, UNIT_WORDS, UNITS,
};
use limits::{Kind, Term, Unit};
use matching::orders::{Direction, Order};
use measures::{Energy, Price, capped_total};

// Whether each of the first n numbers passes a test: `(0..n).all(test)`, of which the proof was tried and did not close.
pub(crate) fn every<F: Fn(usize) -> bool>(n: usize, test: F) -> bool
    requires { (k : ℕ) → k < n → F.pre test k }
    ensures { (f : ℕ → Bool) → ((k : ℕ) (r : Bool) → k < n → F.post test k r → r ≡ f k) → result ≡ all n f }
{
    for k in 0..n {
        if !test(k) {
            return false;
        }
    }
    true
}

// Whether a number is that of an enrolled unit. It is handed on as it is: rows, orders and definitions name a unit by it, not by
// its place.
pub(crate) fn unit_known(book: ReadableBook<'_>, unit: u64) -> bool
    ensures { result ≡ known (decode book.entry.words.now) unit }
{
    (1..=book.words[UNITS]).contains(&unit)
}

// Whether a price is from the floor to the ceiling.
pub(crate) fn price_in(book: ReadableBook<'_>, price: Price) -> bool
    ensures { result ≡ between (word book.entry.words.now FLOOR) (word book.entry.words.now CEILING) price.0 }
{
    Price(book.words[FLOOR]) <= price && price <= Price(book.words[CEILING])
}

// Whether a number was given today.
fn number_given(book: ReadableBook<'_>, number: u64) -> bool
    ensures { result ≡ between 1 (word book.entry.words.now GIVEN) number }
{
    (1..=book.words[GIVEN]).contains(&number)
}

// Whether a floor is not above its ceiling, and this in its range.
pub(crate) fn prices_in_range(floor: Price, ceiling: Price) -> bool
    ensures { result ≡ prices_in floor.0 ceiling.0 }
{
    floor <= ceiling && ceiling.in_range()
}

// The book's own figures.
pub(crate) fn head_in(book: &[u64]) -> bool
    requires { 8 ≤ length book.now }
    ensures { result ≡ head_in (decode book.now) }
{
    if !Term(book[DAYS]).in_range() {
        return false;
    }
    if !prices_in_range(Price(book[FLOOR]), Price(book[CEILING])) {
        return false;
    }
    if Phase::try_from(book[PHASE]).is_err() {
        return false;
    }
    if Offer::NUMBERS < book[GIVEN] {
        return false;
    }
    if Unit::MOST < book[UNITS] {
        return false;
    }
    if Offer::MOST < book[OFFERS] {
        return false;
    }
    if Order::MOST < book[ORDERS] {
        return false;
    }
    true
}

// The unit at place k.
pub(crate) fn unit_at(book: ReadableBook<'_>, k: usize) -> Unit
    requires { k < 64 }
    ensures { (result.kind ≡ word book.entry.words.now (unit_place k)) × (result.capacity ≡ word book.entry.words.now (unit_place k + CAPACITY))
        × (result.asset.0 ≡ word book.entry.words.now (unit_place k + ASSET)) }
{
    let at = UNIT_TABLE + UNIT_WORDS * k;
    Unit {
        kind: book.words[at],
        capacity: book.words[at + CAPACITY],
        asset: Energy(book.words[at + ASSET]),
    }
}

// The kind, capacity and asset of the unit at place k.
fn unit_in(book: ReadableBook<'_>, k: usize) -> bool
    requires { k < 64 }
    ensures { result ≡ unit_fields_in book.entry.words.now k }
{
    unit_at(book, k).checked().is_ok()
}

// The kinds, capacities and assets of all units.
pub(crate) fn units_in(book: ReadableBook<'_>) -> bool
    ensures { result ≡ units_fields_in book.entry.words.now }
{
    every(book.words[UNITS] as usize, |k| unit_in(book, k))
}

// The sum of an offer's amounts, or one more than Energy::MOST where it is more than that.
pub(crate) fn offer_total(book: ReadableBook<'_>, j: usize) -> Energy
    requires { j < 8 }
    ensures { result.0 ≡ min (total (table (periods (word book.entry.words.now DAYS)) (amount_at book.entry.words.now j))) (most_energy + 1) }
{
    let from = AMOUNTS + AMOUNT_WORDS * j;
    let to = from + HOURS * (book.words[DAYS] as usize);
    capped_total(&book.words[from..to])
}

// Whether a unit that is enrolled is a generator. A book that can be read may hold any number as its kind.
pub(crate) fn is_generator(book: ReadableBook<'_>, unit: u64) -> bool
    requires { (1 ≤ unit) × (unit ≤ word book.words.now UNITS) }
    ensures { result ≡ generator (unit_of (decode book.entry.words.now) unit).kind }
{
    let kind = book.words[UNIT_TABLE + UNIT_WORDS * (unit as usize - 1)];
    Kind::try_from(kind).is_ok_and(Kind::is_generator)
}

// The direction that raises a unit's net: a generator sells, a load buys.
pub(crate) fn raising_direction(book: ReadableBook<'_>, unit: u64) -> Direction
    requires { (1 ≤ unit) × (unit ≤ word book.words.now UNITS) }
    ensures { direction_number result ≡ (if generator (unit_of (decode book.entry.words.now) unit).kind then 0 else 1) }
{
    if is_generator(book, unit) {
        return Direction::Sell;
    }
    Direction::Buy
}

// Whether a partner is none, or an enrolled load for a generator.
pub(crate) fn sides_fit(book: ReadableBook<'_>, unit: u64, partner: u64) -> bool
    requires { (1 ≤ unit) × (unit ≤ word book.words.now UNITS) }
    ensures { result ≡ sides_in (decode book.entry.words.now) unit partner }
{
    if partner == 0 {
        return true;
    }
    if book.words[UNITS] < partner {
        return false;
    }
    if !is_generator(book, unit) {
        return false;
    }
    if is_generator(book, partner) {
        return false;
    }
    true
}

// The offer at place j.
fn offer_in(book: ReadableBook<'_>, j: usize) -> bool
    requires { j < 8 }
    ensures { result ≡ offer_in (decode book.entry.words.now) (offer_at book.entry.words.now (word book.entry.words.now DAYS) j) }
{
    let at = OFFER_TABLE + OFFER_WORDS * j;
    let unit = book.words[at + UNIT];
    if !number_given(book, book.words[at]) {
        return false;
    }
    if !unit_known(book, unit) {
        return false;
    }
    if !price_in(book, Price(book.words[at + PRICE])) {
        return false;
    }
    if 1 < book.words[at + TAKEN] {
        return false;
    }
    if !offer_total(book, j).can_be_declared() {
        return false;
    }
    sides_fit(book, unit, book.words[at + PARTNER])
}

// All open offers.
pub(crate) fn offers_in(book: ReadableBook<'_>) -> bool
    ensures { result ≡ every (offer_in (decode book.entry.words.now)) (decode book.entry.words.now).offers }
{
    every(book.words[OFFERS] as usize, |j| offer_in(book, j))
}

// The order at place k.
fn order_in(book: ReadableBook<'_>, k: usize) -> bool
    requires { k < 256 }
    ensures { result ≡ order_in (decode book.entry.words.now) (order_at (orders_part book.entry.words.now) k) }
{
    let at = ORDER_TABLE + ORDER_WORDS * k;
    if !number_given(book, book.words[at]) {
        return false;
    }
    if !unit_known(book, book.words[at + UNIT]) {
        return false;
    }
    if Direction::try_from(book.words[at + DIRECTION]).is_err() {
        return false;
    }
    if !Term(book.words[DAYS]).has(book.words[at + PERIOD]) {
        return false;
    }
    if !price_in(book, Price(book.words[at + PRICE])) {
        return false;
    }
    Energy(book.words[at + QUANTITY]).can_be_declared()
}

// All open orders.
pub(crate) fn orders_in(book: ReadableBook<'_>) -> bool
    ensures { result ≡ every (order_in (decode book.entry.words.now)) (decode book.entry.words.now).orders }
{
    every(book.words[ORDERS] as usize, |k| order_in(book, k))
}
