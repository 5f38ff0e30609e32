// Enrol (paper 01): "Enrol adds a unit."
ghost use Rattle.std.specs.Prelude.{◌≡◌, ◌+◌, ◌*◌, ◌<◌, ◌≤◌, true, length, slice_set};
ghost use Rattle.book.specs.Layout.{DAYS, UNITS, word, decode, Aside};
ghost use Rattle.measures.specs.Refused.{refusal_of};
ghost use Rattle.book.specs.Refusals.{first_refusal};
ghost use Rattle.book.specs.Inner.Readable.{Readable};
ghost use Rattle.book.specs.Inner.Runs.{UnitEmptied};
ghost use Rattle.book.specs.Contract.{sound_in};
ghost use Rattle.book.specs.Enrol.{enrol_checks, enrolled};

use crate::lent::SoundBook;
use crate::places::{
    ASSET, BLOCK, CAPACITY, DAY_WORDS, DAYS, FIGURES, UNIT_TABLE, UNIT_WORDS, UNITS,
};
use crate::words::empty;
use limits::Unit;
use measures::Refusal;

// The checks of an enrol behind that of soundness.
#[tactic(auto, using(crate::proofs::Laws::Memory::RangeFacts::held, crate::proofs::Laws::Answer::MadeLaws::sound_readable), unfolding(crate::specs::Refusals::first_refusal))]
pub(crate) fn enrol_checks(book: SoundBook<'_>, unit: Unit) -> Result<(), Refusal>
    ensures { refusal_of result ≡ first_refusal (enrol_checks (decode book.entry.words.now) unit.kind unit.capacity unit.asset.0) }
{
    unit.checked()?;
    if Unit::MOST <= book.words[UNITS] {
        return Err(Refusal::UnitsFull);
    }
    Ok(())
}

// The figures of the unit at place k become 0 on each day; all other words stay.
fn empty_unit(book: &mut [u64], k: usize)
    requires { (Readable book.old) × (k < 64) }
    ensures { UnitEmptied book.old book.new k (word book.old DAYS) }
{
    let days = book[DAYS] as usize;
    for d in 0..days {
        let at = FIGURES + DAY_WORDS * d + BLOCK * k;
        empty(book, at, at + BLOCK);
    }
}

// The words of a unit beside its figures; the first stands at `at`.
fn put_words(book: &mut [u64], at: usize, unit: Unit)
    requires { at + 3 ≤ length book.old }
    ensures { book.new ≡ slice_set (slice_set (slice_set book.old at unit.kind) (at + CAPACITY) unit.capacity) (at + ASSET) unit.asset.0 }
{
    book[at] = unit.kind;
    book[at + CAPACITY] = unit.capacity;
    book[at + ASSET] = unit.asset.0;
}

// One unit more stands behind the others; its name is its place among them, from 1.
#[tactic(auto, using(crate::proofs::Laws::Answer::MadeLaws::sound_readable))]
pub(crate) fn enrol_effect(book: &mut [u64], unit: Unit) -> u64
    requires { (sound_in book.old ≡ true) × (word book.old UNITS < 64) }
    ensures number { result ≡ word book.old UNITS + 1 }
    ensures book { (decode book.new ≡ enrolled (decode book.old) unit.kind unit.capacity unit.asset.0)
        × (Aside book.old book.new) }
{
    let k = book[UNITS] as usize;
    empty_unit(book, k);
    put_words(book, UNIT_TABLE + UNIT_WORDS * k, unit);
    let number = k as u64 + 1;
    book[UNITS] = number;
    number
}
