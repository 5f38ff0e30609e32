// Opening a book: paper 01, "Units of measure and the book".
ghost use Rattle.std.specs.Prelude.{◌≡◌, ◌+◌, ◌*◌, ◌<◌, ◌≤◌, length, drop, true, false, MatchOption};
ghost use Rattle.limits.specs.Units.{days_in};
ghost use Rattle.book.specs.Book.{rules_of};
ghost use Rattle.book.specs.Opening.{fresh, words_for, WithinBytes};
ghost use Rattle.book.specs.Layout.{LAYOUT, layout_number, figures_start, book_words, word, decode};
ghost use Rattle.book.specs.Contract.{Opened};

use crate::phase::Phase;
use crate::places::{
    CEILING, DAY_WORDS, DAYS, FIGURES, FLOOR, GIVEN, LAYOUT, LAYOUT_NUMBER, OFFERS, ORDERS, PHASE,
    UNITS,
};
use crate::ranges::prices_in_range;
use crate::{Answer, Done};
use limits::Term;
use measures::{Price, Refusal};

// How many words a book of these days needs, where there is such a book.
fn words_needed(days: u64) -> Option<usize>
    ensures { MatchOption result (days_in days ≡ false)
        (λ words. (days_in days ≡ true) × (words ≡ book_words days) × (WithinBytes words days)) }
{
    if !Term(days).in_range() {
        return None;
    }
    Some(FIGURES + DAY_WORDS * (days as usize))
}

// The same for Rust and C; 0 where there is no such book, as C asks.
pub fn book_words(days: u64) -> u64
    ensures { (result ≡ words_for days) × (WithinBytes result days) }
{
    match words_needed(days) {
        Some(words) => words as u64,
        None => 0,
    }
}

// Writes the head of a fresh book.
fn write_head(book: &mut [u64], days: u64, floor: u64, ceiling: u64)
    requires { figures_start ≤ length book.old }
    ensures { (decode book.new ≡ fresh (rules_of days floor ceiling)) × (word book.new LAYOUT ≡ layout_number)
        × (drop figures_start book.new ≡ drop figures_start book.old) }
{
    book[DAYS] = days;
    book[FLOOR] = floor;
    book[CEILING] = ceiling;
    book[PHASE] = Phase::Call as u64;
    book[GIVEN] = 0;
    book[UNITS] = 0;
    book[OFFERS] = 0;
    book[ORDERS] = 0;
    book[LAYOUT] = LAYOUT_NUMBER;
}

// Opens a book of these days and prices. What the memory held before is not looked at.
pub fn open(book: &mut [u64], days: u64, floor: u64, ceiling: u64) -> Answer
    ensures { Opened book.old (rules_of days floor ceiling) result book.new }
{
    let Some(words) = words_needed(days) else {
        return Err(Refusal::BadOpening);
    };
    if book.len() < words {
        return Err(Refusal::UnsoundBook);
    }
    if !prices_in_range(Price(floor), Price(ceiling)) {
        return Err(Refusal::BadOpening);
    }
    write_head(book, days, floor, ceiling);
    Ok(Done::NOTHING)
}
