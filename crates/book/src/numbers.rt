// Open numbers: whether they differ (paper 01, "A book is sound if"), and the offer or the order of one.
ghost use Rattle.std.specs.Prelude.{◌≡◌, ◌+◌, ◌-◌, ◌*◌, ◌<◌, ◌≤◌, length};
ghost use Rattle.measures.specs.Lists.{every};
ghost use Rattle.matching.specs.Orders.{rising};
ghost use Rattle.book.specs.Sound.{numbers_differ};
ghost use Rattle.book.specs.Layout.{word, decode};
ghost use Rattle.book.specs.Inner.Readable.{offer_numbers, number_free, numbers_free};
ghost use Rattle.book.specs.Inner.Search.{Found, OfferFound, OrderFound};

use crate::lent::ReadableBook;
use crate::places::{AMOUNTS, OFFER_TABLE, OFFER_WORDS, OFFERS, ORDER_TABLE, ORDER_WORDS, ORDERS};
use crate::ranges::every;

// Whether the numbers of the open offers rise: each is above the one before it. The orders' numbers are matching's to test,
// which reads them as orders. By `every` the test would read the place before too, and leave out the first: no plainer.
fn offers_rise(book: ReadableBook<'_>) -> bool
    ensures { result ≡ rising (offer_numbers (decode book.entry.words.now)) }
{
    let n = book.words[OFFERS] as usize;
    for j in 1..n {
        let number = book.words[OFFER_TABLE + OFFER_WORDS * j];
        let before = book.words[OFFER_TABLE + OFFER_WORDS * (j - 1)];
        if number <= before {
            return false;
        }
    }
    true
}

// The first of n records, of so many words each, that has this number in the word looked at, which in the first stands at `table`.
// Records are words, no items of a slice, so the test of a library's search would need clauses of its own. Numbers rise,
// but the units that `has_offer` looks for do not, so it is no search by halves.
pub(crate) fn find<const WORDS: usize>(
    book: &[u64],
    table: usize,
    n: usize,
    number: u64,
) -> Option<usize>
    requires { (1 ≤ WORDS) × (table + WORDS * n ≤ length book.now) }
    ensures { Found (λ k. word book.now (table + WORDS * k)) n number result }
{
    for k in 0..n {
        if book[table + WORDS * k] == number {
            return Some(k);
        }
    }
    None
}

// The place of the open offer of a number.
pub(crate) fn find_offer(book: ReadableBook<'_>, number: u64) -> Option<usize>
    ensures { OfferFound book.entry.words.now number result }
{
    find::<OFFER_WORDS>(book.words, OFFER_TABLE, book.words[OFFERS] as usize, number)
}

// The place of the open order of a number.
pub(crate) fn find_order(book: ReadableBook<'_>, number: u64) -> Option<usize>
    ensures { OrderFound book.entry.words.now number result }
{
    find::<ORDER_WORDS>(book.words, ORDER_TABLE, book.words[ORDERS] as usize, number)
}

// Whether no open order has this number.
fn number_free(book: ReadableBook<'_>, number: u64) -> bool
    ensures { result ≡ number_free (decode book.entry.words.now) number }
{
    find_order(book, number).is_none()
}

// Whether no open offer has an order's number.
fn numbers_free(book: ReadableBook<'_>) -> bool
    ensures { result ≡ numbers_free (decode book.entry.words.now) }
{
    every(book.words[OFFERS] as usize, |j| {
        number_free(book, book.words[OFFER_TABLE + OFFER_WORDS * j])
    })
}

// Whether all open numbers differ.
pub(crate) fn numbers_differ(book: ReadableBook<'_>) -> bool
    ensures { result ≡ numbers_differ (decode book.entry.words.now) }
{
    if !offers_rise(book) {
        return false;
    }
    let n = book.words[ORDERS] as usize;
    if !matching::fitness::numbers_rise(&book.words[ORDER_TABLE..AMOUNTS], n) {
        return false;
    }
    numbers_free(book)
}
