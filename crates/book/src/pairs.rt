// Whether open orders may stand together: paper 01, "A book is sound if".
ghost use Rattle.std.specs.Prelude.{◌≡◌, ◌<◌, ◌≤◌, true, not};
ghost use Rattle.measures.specs.Lists.{all};
ghost use Rattle.matching.specs.Memory.{order_at};
ghost use Rattle.book.specs.Sound.{one_direction};
ghost use Rattle.limits.specs.Units.{periods};
ghost use Rattle.book.specs.Layout.{DAYS, PHASE, ORDERS, word, orders_part, decode};
ghost use Rattle.book.specs.Inner.Readable.{pairs_fit};
ghost use Rattle.book.specs.Inner.Whole.{Alike, PricesNoted, PricesKept, crossless, Priced, pairs_before, OrderStands};

use crate::lent::{ChainedBook, RangedBook};
use crate::phase::Phase;
use crate::places::{
    DAYS, DIRECTION, ORDER_TABLE, ORDER_WORDS, ORDERS, PERIOD, PHASE, PRICE, UNIT,
};
use matching::orders::Direction;
use matching::periods::Prices;
use measures::Price;

// The place of an order before the one at place k with its unit and period: the orders of the unit and day and those of the
// period are walked together, so that the shorter way ends it; the loop follows links and counts no index.
fn find_alike(book: ChainedBook<'_, '_>, k: usize) -> Option<usize>
    requires { k < word book.words.now ORDERS }
    ensures { Alike book.entry.words.now k result }
{
    let at = ORDER_TABLE + ORDER_WORDS * k;
    let unit = book.words[at + UNIT];
    let period = book.words[at + PERIOD];
    let mut day_next = book.days.before(k);
    let mut period_next = book.periods.before(k);
    while let Some(a) = day_next {
        let Some(b) = period_next else {
            return None;
        };
        if book.words[ORDER_TABLE + ORDER_WORDS * a + PERIOD] == period {
            return Some(a);
        }
        if book.words[ORDER_TABLE + ORDER_WORDS * b + UNIT] == unit {
            return Some(b);
        }
        day_next = book.days.before(a);
        period_next = book.periods.before(b);
    }
    None
}

// Whether the order at place k goes the same way as the orders of its unit before it in its period, which go one way.
fn one_direction(book: ChainedBook<'_, '_>, k: usize) -> bool
    requires { (k < word book.words.now ORDERS) × (pairs_before book.words.now k ≡ true) }
    ensures { result ≡ all k (λ j. one_direction (order_at (orders_part book.entry.words.now) k) (order_at (orders_part book.entry.words.now) j)) }
{
    let Some(t) = find_alike(book, k) else {
        return true;
    };
    book.words[ORDER_TABLE + ORDER_WORDS * t + DIRECTION]
        == book.words[ORDER_TABLE + ORDER_WORDS * k + DIRECTION]
}

// Whether the order at place k crosses one before it. That the term's periods are within the table, and that it has the prices of the orders
// before (`PricesNoted`), ties it to a book: as a struct of both it would be written through a `&mut`.
#[tactic(auto, using(crate::proofs::Laws::Check::ShareLaws::order_ranges))]
fn crosses<const PERIODS: usize>(book: RangedBook<'_>, k: usize, prices: &Prices<PERIODS>) -> bool
    requires { (k < word book.words.now ORDERS) × (periods (word book.words.now DAYS) ≤ PERIODS)
        × (PricesNoted book.words.now k prices.now.high prices.now.low) }
    ensures { result ≡ not (all k (crossless book.entry.words.now k)) }
{
    let at = ORDER_TABLE + ORDER_WORDS * k;
    let p = book.words[at + PERIOD] as usize;
    let price = book.words[at + PRICE];
    if book.words[at + DIRECTION] == u64::from(Direction::Buy) {
        return prices.low[p] <= price;
    }
    price < prices.high[p]
}

// Whether the order at place k crosses none before it; its price is then entered.
fn stands_apart<const PERIODS: usize>(
    book: RangedBook<'_>,
    k: usize,
    prices: &mut Prices<PERIODS>,
) -> bool
    requires { (k < word book.words.now ORDERS) × (periods (word book.words.now DAYS) ≤ PERIODS)
        × (PricesNoted book.words.now k prices.old.high prices.old.low) }
    ensures { Priced book.entry.words.now k result prices.new.high prices.new.low }
{
    if crosses(book, k, prices) {
        return false;
    }
    let at = ORDER_TABLE + ORDER_WORDS * k;
    let p = book.words[at + PERIOD] as usize;
    prices.note(book.words[at + DIRECTION], p, Price(book.words[at + PRICE]));
    true
}

// Whether the order at place k may stand with each before it.
fn order_stands<const PERIODS: usize>(
    book: ChainedBook<'_, '_>,
    k: usize,
    prices: &mut Prices<PERIODS>,
) -> bool
    requires { (k < word book.words.now ORDERS) × (pairs_before book.words.now k ≡ true)
        × (word book.words.now PHASE ≡ 1 → periods (word book.words.now DAYS) ≤ PERIODS)
        × (PricesKept book.words.now k prices.old.high prices.old.low) }
    ensures { OrderStands book.entry.words.now k result prices.new.high prices.new.low }
{
    if !one_direction(book, k) {
        return false;
    }
    if book.words[PHASE] != Phase::Rolling as u64 {
        return true;
    }
    stands_apart(RangedBook { words: book.words }, k, prices)
}

// Whether the orders stand together; no price is entered yet.
fn all_stand<const PERIODS: usize>(book: ChainedBook<'_, '_>, prices: &mut Prices<PERIODS>) -> bool
    requires { (word book.words.now PHASE ≡ 1 → periods (word book.words.now DAYS) ≤ PERIODS)
        × (PricesKept book.words.now 0 prices.old.high prices.old.low) }
    ensures { result ≡ pairs_fit (word book.entry.words.now PHASE) (decode book.entry.words.now).orders }
{
    let n = book.words[ORDERS] as usize;
    // `every` takes a test that changes nothing, and this one enters prices
    for k in 0..n {
        if !order_stands(book, k, prices) {
            return false;
        }
    }
    true
}

// The same with tables of prices of this size, which only the rolling phase asks for.
fn stand_in<const PERIODS: usize>(book: ChainedBook<'_, '_>) -> bool
    requires { (PERIODS ≤ 744) × (word book.words.now PHASE ≡ 1 → periods (word book.words.now DAYS) ≤ PERIODS) }
    ensures { result ≡ pairs_fit (word book.entry.words.now PHASE) (decode book.entry.words.now).orders }
{
    let mut prices = Prices::<PERIODS>::none();
    all_stand(book, &mut prices)
}

// The same: before the rolling phase no price is entered, and a week asks for small tables (`sound::open_fit` has the measure). Each
// order's test takes those before it for granted, so the walk is one for both phases.
pub(crate) fn orders_fit(book: ChainedBook<'_, '_>) -> bool
    ensures { result ≡ pairs_fit (word book.entry.words.now PHASE) (decode book.entry.words.now).orders }
{
    if book.words[PHASE] != Phase::Rolling as u64 {
        return stand_in::<1>(book);
    }
    if book.words[DAYS] <= 7 {
        return stand_in::<168>(book);
    }
    stand_in::<744>(book)
}
