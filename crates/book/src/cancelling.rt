// Cancel (paper 01): "Cancel removes what is left of an own order."
ghost use Rattle.std.specs.Prelude.{◌≡◌, ◌+◌, ◌-◌, ◌*◌, ◌<◌, true, not, ◌==◌, IfOk};
ghost use Rattle.measures.specs.Lists.{keep};
ghost use Rattle.book.specs.Book.{with_orders};
ghost use Rattle.book.specs.Layout.{ORDERS, order_place, word, decode, Aside};
ghost use Rattle.measures.specs.Refused.{refusal_of};
ghost use Rattle.book.specs.Refusals.{first_refusal};
ghost use Rattle.book.specs.Inner.Search.{OrderHas};
ghost use Rattle.book.specs.Contract.{sound_in};
ghost use Rattle.book.specs.Cancel.{cancel_checks};

use crate::lent::{ReadableBook, SoundBook};
use crate::numbers::find_order;
use crate::places::{AMOUNTS, ORDER_TABLE, ORDER_WORDS, ORDERS, UNIT};
use crate::ranges::unit_known;
use measures::Refusal;

// The checks of a cancel behind that of soundness; where none applies, the place of the order. One search of an own record for
// this and a withdraw was tried: with its proofs it was longer.
#[tactic(auto, using(crate::proofs::Laws::Memory::RangeFacts::held, crate::proofs::Laws::Answer::MadeLaws::sound_readable), unfolding(crate::specs::Refusals::first_refusal))]
pub(crate) fn cancel_checks(book: SoundBook<'_>, unit: u64, number: u64) -> Result<usize, Refusal>
    ensures refusal { refusal_of result ≡ first_refusal (cancel_checks (decode book.entry.words.now) unit number) }
    ensures place { IfOk result (λ k. OrderHas book.entry.words.now number k) }
{
    let book = ReadableBook { words: book.words };
    if !unit_known(book, unit) {
        return Err(Refusal::UnknownName);
    }
    let Some(k) = find_order(book, number) else {
        return Err(Refusal::NoSuchNumber);
    };
    if book.words[ORDER_TABLE + ORDER_WORDS * k + UNIT] != unit {
        return Err(Refusal::NoSuchNumber);
    }
    Ok(k)
}

// The open order at place k goes.
#[tactic(auto, using(crate::proofs::Laws::Answer::MadeLaws::sound_readable))]
pub(crate) fn cancel_effect(book: &mut [u64], k: usize)
    requires { (sound_in book.old ≡ true) × (k < word book.old ORDERS) }
    ensures { (decode book.new ≡ with_orders (decode book.old)
        (keep (λ o. not (o.number == word book.old (order_place k))) (decode book.old).orders))
        × (Aside book.old book.new) }
{
    let n = book[ORDERS];
    // the order stands there, so it goes
    matching::orders::remove(&mut book[ORDER_TABLE..AMOUNTS], n as usize, k);
    book[ORDERS] = n - 1;
}
