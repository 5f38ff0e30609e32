// Whether memory holds a sound book: paper 01, "A book is sound if".
ghost use Rattle.std.specs.Prelude.{◌≡◌, ◌*◌, ◌<◌, ◌≤◌, ◌&&◌, cond, length, IfOk};
ghost use Rattle.measures.specs.Refused.{refusal_of};
ghost use Rattle.book.specs.Layout.{DAYS, PHASE, word, decode};
ghost use Rattle.book.specs.Contract.{sound_in};
ghost use Rattle.book.specs.Inner.Readable.{units_whole, pairs_fit};
ghost use Rattle.book.specs.Inner.Fitting.{Below};

use crate::lent::{ChainedBook, RangedBook, ReadableBook, SoundBook};
use crate::numbers::numbers_differ;
use crate::pairs::orders_fit;
use crate::places::{DAY_WORDS, DAYS, FIGURES, LAYOUT, LAYOUT_NUMBER, ORDERS};
use crate::ranges::{head_in, offers_in, orders_in, units_in};
use crate::standing::{Links, link_orders};
use crate::whole::units_fit;
use measures::Refusal;

// Whether the orders may stand together and all units fit; `last` and `firsts` are empty, with room for each unit's days and
// for each period.
fn linked_fit(book: RangedBook<'_>, last: &mut [u64], firsts: &mut [u64]) -> bool
    requires { (64 * word book.words.now DAYS ≤ length last.old) × (Below 0 last.old)
        × (24 * word book.words.now DAYS ≤ length firsts.old) × (Below 0 firsts.old) }
    ensures { result ≡ (pairs_fit (word book.entry.words.now PHASE) (decode book.entry.words.now).orders && units_whole (decode book.entry.words.now)) }
{
    let mut own = [0u64; 256];
    let mut peers = [0u64; 256];
    link_orders(book, last, &mut own, firsts, &mut peers);
    let days = Links { last, before: &own };
    let periods = Links {
        last: firsts,
        before: &peers,
    };
    let chained = ChainedBook {
        words: book.words,
        days,
        periods,
    };
    if !orders_fit(chained) {
        return false;
    }
    units_fit(book, days)
}

// The same with tables of these sizes.
fn linked_fit_in<const LAST: usize, const FIRSTS: usize>(book: RangedBook<'_>) -> bool
    requires { (64 * word book.words.now DAYS ≤ LAST) × (LAST ≤ 1984)
        × (24 * word book.words.now DAYS ≤ FIRSTS) × (FIRSTS ≤ 744) }
    ensures { result ≡ (pairs_fit (word book.entry.words.now PHASE) (decode book.entry.words.now).orders && units_whole (decode book.entry.words.now)) }
{
    let mut last = [0u64; LAST];
    let mut firsts = [0u64; FIRSTS];
    linked_fit(book, &mut last, &mut firsts)
}

// The same: without orders nothing is linked, and a week asks for small tables. With the large ones alone, a check of a day's book with 64
// orders took 1.83 µs in place of 1.08 and missed its bar of 1.6 times the second engine.
fn open_fit(book: RangedBook<'_>) -> bool
    ensures { result ≡ (pairs_fit (word book.entry.words.now PHASE) (decode book.entry.words.now).orders && units_whole (decode book.entry.words.now)) }
{
    if book.words[ORDERS] == 0 {
        let unlinked = Links {
            last: &[],
            before: &[],
        };
        return units_fit(book, unlinked);
    }
    if book.words[DAYS] <= 7 {
        return linked_fit_in::<448, 168>(book);
    }
    linked_fit_in::<1984, 744>(book)
}

// Whether the memory is long enough and holds a sound book.
fn sound_book(book: &[u64]) -> bool
    ensures { result ≡ sound_in book.now }
{
    if book.len() < FIGURES {
        return false;
    }
    if !head_in(book) {
        return false;
    }
    if book[LAYOUT] != LAYOUT_NUMBER {
        return false;
    }
    let days = book[DAYS] as usize;
    if book.len() < FIGURES + DAY_WORDS * days {
        return false;
    }
    let readable = ReadableBook { words: book };
    if !units_in(readable) {
        return false;
    }
    if !offers_in(readable) {
        return false;
    }
    if !orders_in(readable) {
        return false;
    }
    if !numbers_differ(readable) {
        return false;
    }
    open_fit(RangedBook { words: book })
}

// The check that every call makes first; what is read after it is read of a sound book.
pub(crate) fn check_sound(book: &[u64]) -> Result<SoundBook<'_>, Refusal>
    ensures refusal { refusal_of result ≡ cond (sound_in book.now) 0 1 }
    ensures same { IfOk result (λ sound. sound.words.now ≡ book.now) }
{
    if !sound_book(book) {
        return Err(Refusal::UnsoundBook);
    }
    Ok(SoundBook { words: book })
}
