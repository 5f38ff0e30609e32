// Withdraw (paper 01): "Withdraw removes an own offer of which nothing is taken."
ghost use Rattle.std.specs.Prelude.{◌≡◌, ◌+◌, ◌-◌, ◌*◌, ◌<◌, true, not, ◌==◌, IfOk};
ghost use Rattle.measures.specs.Lists.{keep};
ghost use Rattle.book.specs.Book.{with_offers};
ghost use Rattle.book.specs.Layout.{OFFERS, offer_place, word, decode, Aside};
ghost use Rattle.measures.specs.Refused.{refusal_of};
ghost use Rattle.book.specs.Refusals.{first_refusal};
ghost use Rattle.book.specs.Inner.Search.{OfferHas};
ghost use Rattle.book.specs.Contract.{sound_in};
ghost use Rattle.book.specs.Withdraw.{withdraw_checks};

use crate::lent::{ReadableBook, SoundBook};
use crate::numbers::find_offer;
use crate::places::{AMOUNT_WORDS, AMOUNTS, OFFER_TABLE, OFFER_WORDS, OFFERS, TAKEN, UNIT};
use crate::ranges::unit_known;
use crate::words::shift;
use measures::Refusal;

// The checks of a withdraw behind that of soundness; where none applies, the place of the offer. One search of an own record for
// this and a cancel was tried: with its proofs it was longer.
#[tactic(auto, using(crate::proofs::Laws::Memory::RangeFacts::held, crate::proofs::Laws::Answer::MadeLaws::sound_readable), unfolding(crate::specs::Refusals::first_refusal))]
pub(crate) fn withdraw_checks(book: SoundBook<'_>, unit: u64, number: u64) -> Result<usize, Refusal>
    ensures refusal { refusal_of result ≡ first_refusal (withdraw_checks (decode book.entry.words.now) unit number) }
    ensures place { IfOk result (λ j. OfferHas book.entry.words.now number j) }
{
    let book = ReadableBook { words: book.words };
    if !unit_known(book, unit) {
        return Err(Refusal::UnknownName);
    }
    let Some(j) = find_offer(book, number) else {
        return Err(Refusal::NoSuchNumber);
    };
    if book.words[OFFER_TABLE + OFFER_WORDS * j + UNIT] != unit {
        return Err(Refusal::NoSuchNumber);
    }
    if book.words[OFFER_TABLE + OFFER_WORDS * j + TAKEN] == 1 {
        return Err(Refusal::AfterTake);
    }
    Ok(j)
}

// The open offer at place j goes, out of the table of offers and out of that of their amounts.
#[tactic(auto, using(crate::proofs::Laws::Answer::MadeLaws::sound_readable))]
pub(crate) fn withdraw_effect(book: &mut [u64], j: usize)
    requires { (sound_in book.old ≡ true) × (j < word book.old OFFERS) }
    ensures { (decode book.new ≡ with_offers (decode book.old)
        (keep (λ o. not (o.number == word book.old (offer_place j))) (decode book.old).offers))
        × (Aside book.old book.new) }
{
    let n = book[OFFERS] as usize;
    shift(
        book,
        AMOUNTS + AMOUNT_WORDS * j,
        AMOUNTS + AMOUNT_WORDS * (n - 1),
        AMOUNT_WORDS,
    );
    shift(
        book,
        OFFER_TABLE + OFFER_WORDS * j,
        OFFER_TABLE + OFFER_WORDS * (n - 1),
        OFFER_WORDS,
    );
    book[OFFERS] = n as u64 - 1;
}
