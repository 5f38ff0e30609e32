// Clear (paper 01): its checks, and the periods one after the other.
ghost use Rattle.std.specs.Prelude.{◌≡◌, ◌≤◌, true, length};
ghost use Rattle.book.specs.Layout.{decode};
ghost use Rattle.measures.specs.Refused.{refusal_of};
ghost use Rattle.book.specs.Refusals.{first_refusal};
ghost use Rattle.book.specs.Contract.{sound_in};
ghost use Rattle.book.specs.Clear.{clear_checks};
ghost use Rattle.book.specs.Inner.Periods.{Swept, AllCleared};

use crate::lent::ReadableBook;
use crate::phase::Phase;
use crate::places::{AMOUNTS, DAYS, ORDER_TABLE, ORDERS, PHASE, ROOM_FOR_ROWS};
use crate::trades::book_rows;
use matching::periods::clear_periods;
use measures::Refusal;

// The checks of a clear behind that of soundness.
#[tactic(auto, using(crate::proofs::Laws::Memory::RangeFacts::held, crate::proofs::Laws::Answer::MadeLaws::sound_readable), unfolding(crate::specs::Refusals::first_refusal))]
pub(crate) fn clear_checks(book: ReadableBook<'_>, lent: usize) -> Result<(), Refusal>
    ensures { refusal_of result ≡ first_refusal (clear_checks (decode book.entry.words.now) lent) }
{
    if lent < ROOM_FOR_ROWS {
        return Err(Refusal::FewRows);
    }
    if book.words[PHASE] == Phase::Rolling as u64 {
        return Err(Refusal::ClearInRolling);
    }
    Ok(())
}

// Clears the book's orders and counts those that stand; how many rows there are. That 4,464 words of rows are lent stays a
// clause: an array cut off the lent rows would have to be joined with the rest of them in each contract.
fn sweep(book: &mut [u64], rows: &mut [u64]) -> usize
    requires { (sound_in book.old ≡ true) × (4464 ≤ length rows.old) }
    ensures { Swept book.old rows.old result book.new rows.new }
{
    let n = book[ORDERS] as usize;
    let end = 24 * book[DAYS];
    let Some(cleared) = clear_periods(&mut book[ORDER_TABLE..AMOUNTS], n, end, rows) else {
        unreachable!()
    };
    book[ORDERS] = cleared.standing as u64;
    cleared.count
}

// Clears each period of a sound book, books the rows and begins the rolling phase; how many rows there are.
pub(crate) fn clear_effect(book: &mut [u64], rows: &mut [u64]) -> usize
    requires { (sound_in book.old ≡ true) × (4464 ≤ length rows.old) }
    ensures { AllCleared book.old rows.old result book.new rows.new }
{
    let count = sweep(book, rows);
    book_rows(book, rows, count);
    book[PHASE] = Phase::Rolling as u64;
    count
}
