// Closing the day: paper 01, "The eight calls", Close.
ghost use Rattle.std.specs.Prelude.{◌≡◌, ◌+◌, ◌-◌, ◌*◌, ◌<◌, ◌≤◌, false, length};
ghost use Rattle.book.specs.Close.{day_closed};
ghost use Rattle.book.specs.Layout.{DAYS, UNITS, block_words, VOLUME, word, decode, Aside};
ghost use Rattle.book.specs.Inner.Readable.{Readable};
ghost use Rattle.book.specs.Inner.Closing.{hours, Untraded, BlockNetted, DayNetted, Netting, BlockClosed, DayOver, DaysOver};

use crate::pass::joined;
use crate::phase::Phase;
use crate::places::{
    BLOCK, DAY_WORDS, DAYS, FIGURES, GIVEN, HOURS, LOWERED, OFFERS, ORDERS, PHASE, RAISED, UNITS,
    VOLUME,
};
use crate::words::empty;

// The figures of a unit on a day, which begin at `at`: held becomes net; raised, lowered and marks, which stand side by side, become 0.
// A block is read and written at its place in the book, of whose words the definitions speak.
fn close_block(book: &mut [u64], at: usize)
    requires { (at + block_words ≤ length book.old) × (at < 1000000) × (BlockNetted book.old at) }
    ensures { BlockClosed book.old book.new at hours }
{
    for h in 0..HOURS {
        let i = at + h;
        book[i] = book[i] + book[i + RAISED] - book[i + LOWERED];
    }
    empty(book, at + RAISED, at + VOLUME);
}

// Whether a unit traded on a day, whose figures begin at `at`: raised, lowered and marks are joined.
fn traded(book: &[u64], at: usize) -> bool
    requires { (at + block_words ≤ length book.now) × (at < 1000000) }
    ensures { result ≡ false → Untraded book.now at VOLUME }
{
    book[at + RAISED..at + VOLUME]
        .iter()
        .fold(0, |all, word| joined(all, *word))
        != 0
}

// The figures of a unit on a day, which begin at `at`; a day without trades stays as it is.
fn close_unit(book: &mut [u64], at: usize)
    requires { (at + block_words ≤ length book.old) × (at < 1000000) × (BlockNetted book.old at) }
    ensures { BlockClosed book.old book.new at hours }
{
    if !traded(book, at) {
        return;
    }
    close_block(book, at);
}

// The figures of all units on day d.
fn close_units(book: &mut [u64], d: usize)
    requires { (Readable book.old) × (d < word book.old DAYS) × (DayNetted book.old d) }
    ensures { DayOver book.old book.new d (word book.old UNITS) }
{
    let n = book[UNITS] as usize;
    for k in 0..n {
        close_unit(book, FIGURES + DAY_WORDS * d + BLOCK * k);
    }
}

// The figures of all units on all days.
fn close_figures(book: &mut [u64])
    requires { (Readable book.old) × (Netting book.old) }
    ensures { DaysOver book.old book.new (word book.old DAYS) }
{
    let days = book[DAYS] as usize;
    for d in 0..days {
        close_units(book, d);
    }
}

// Closes the day of a book that can be read and whose figures come to nets.
pub(crate) fn close_day(book: &mut [u64])
    requires { (Readable book.old) × (Netting book.old) }
    ensures { (decode book.new ≡ day_closed (decode book.old))
        × (Aside book.old book.new) }
{
    close_figures(book);
    book[PHASE] = Phase::Call as u64;
    book[GIVEN] = 0;
    book[OFFERS] = 0;
    book[ORDERS] = 0;
}
