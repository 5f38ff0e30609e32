// Whether a unit fits its limits, with what it has open and a declaration added: paper 01, "Limits".
ghost use Rattle.std.specs.Prelude.{◌≡◌, ◌+◌, ◌-◌, ◌*◌, ◌<◌, ◌≤◌, true, slice_index};
ghost use Rattle.measures.specs.Ranges.{most_energy};
ghost use Rattle.measures.specs.Lists.{sum};
ghost use Rattle.measures.specs.Refused.{refusal_of};
ghost use Rattle.matching.specs.Memory.{direction_number};
ghost use Rattle.book.specs.Layout.{UNITS, ORDERS, word, decode};
ghost use Rattle.book.specs.Contract.{sound_in};
ghost use Rattle.book.specs.Inner.Readable.{Fitted, declared};
ghost use Rattle.book.specs.Inner.Fitting.{order_share, term_at, volume_at, SumsCame, UnitCame};
ghost use Rattle.book.specs.Inner.Pass.{most_open, UnitPass};
ghost use Rattle.book.specs.Inner.Whole.{BothBelow, BothAdded};

use crate::lent::{RangedBook, ReadableBook, SoundBook};
use crate::pass::{Amounts, LOW, Sums, UnitAt, all_days, day_sums, hour_limits};
use crate::places::{DAYS, HOURS, ORDER_TABLE, ORDER_WORDS, ORDERS, UNIT};
use crate::ranges::{raising_direction, unit_at};
use crate::standing::{add_offers, add_order};
use limits::{Limits, Term, unit_limits};
use matching::orders::Direction;
use measures::Refusal;

// What a unit's orders have open, by period: those of this direction raise.
fn add_orders(book: RangedBook<'_>, unit: u64, direction: Direction, amounts: &mut Amounts<744>)
    requires { BothBelow 36000000000 amounts.old }
    ensures { BothAdded 744 amounts.old amounts.new
        (λ p. sum (word book.entry.words.now ORDERS) (λ k. order_share book.entry.words.now unit (direction_number direction) k p))
        (λ p. sum (word book.entry.words.now ORDERS) (λ k. order_share book.entry.words.now unit (1 - direction_number direction) k p))
        1024000000000 }
{
    let n = book.words[ORDERS] as usize;
    for k in 0..n {
        if book.words[ORDER_TABLE + ORDER_WORDS * k + UNIT] == unit {
            add_order(book, direction, k, amounts);
        }
    }
}

// The term and volume limit of a unit. Period 0 stands in every term; its hour limit is not read.
fn bounds_of(unit: UnitAt<'_>) -> Limits
    ensures { (result.term.0 ≡ term_at unit.entry.book.words.now unit.entry.place)
        × (result.volume.0 ≡ volume_at unit.entry.book.words.now unit.entry.place) }
{
    let words = unit.book.words;
    let fields = unit_at(ReadableBook { words }, unit.place);
    match unit_limits(Term(words[DAYS]), fields, 0) {
        Ok(limits) => limits,
        Err(_) => unreachable!(),
    }
}

// All days of a unit, with what raises and what lowers by period.
fn open_unit(unit: UnitAt<'_>, amounts: &Amounts<744>) -> Sums
    requires { BothBelow most_open amounts.now }
    ensures { UnitPass unit.entry.book.words.now unit.entry.place (λ p. slice_index amounts.now.raising p)
        (λ p. slice_index amounts.now.lowering p) result }
{
    all_days(unit.book.words[DAYS] as usize, |d| {
        day_sums(unit, d, |h| amounts.at(HOURS * d + h))
    })
}

// What the sums of a pass over a unit come to: the first that is past its limit, if one is.
pub(crate) fn sums_came(unit: UnitAt<'_>, s: Sums) -> Result<(), Refusal>
    ensures { SumsCame unit.entry.book.words.now unit.entry.place s (refusal_of result) }
{
    if LOW < s.bad {
        return Err(Refusal::HourMisfit);
    }
    let most = bounds_of(unit);
    if most.term.0 < s.whole {
        return Err(Refusal::TermMisfit);
    }
    if most.volume.0 < s.volume {
        return Err(Refusal::VolumeMisfit);
    }
    Ok(())
}

// What the unit at place k of a sound book comes to with these amounts by period: what does not fit, if anything. A fault is an hour's.
// It takes a `RangedBook` and a clause: of a `SoundBook` it was tried, and a `UnitAt` whose book is made in the same function is refused.
fn fit_of(book: RangedBook<'_>, k: usize, amounts: &Amounts<744>) -> Result<(), Refusal>
    requires sound { sound_in book.words.now ≡ true }
    requires place { k < word book.words.now UNITS }
    requires amounts { BothBelow most_open amounts.now }
    ensures { UnitCame book.entry.words.now k (λ p. slice_index amounts.now.raising p) (λ p. slice_index amounts.now.lowering p)
        (refusal_of result) }
{
    let limits = hour_limits(book, k);
    let unit = UnitAt {
        book,
        place: k,
        limits: &limits,
    };
    sums_came(unit, open_unit(unit, amounts))
}

// What a unit of a sound book comes to with a declaration lent as amounts by period: what does not fit, if
// anything. The amounts are then those with what the unit has open.
pub(crate) fn misfit(
    book: SoundBook<'_>,
    unit: u64,
    amounts: &mut Amounts<744>,
) -> Result<(), Refusal>
    requires enrolled { (1 ≤ unit) × (unit ≤ word book.words.now UNITS) }
    requires amounts { BothBelow most_energy amounts.old }
    ensures { Fitted (decode book.entry.words.now) unit (declared amounts.old.raising amounts.old.lowering) (refusal_of result) }
{
    let ranged = RangedBook { words: book.words };
    let direction = raising_direction(ReadableBook { words: book.words }, unit);
    let top = HOURS * book.words[DAYS] as usize;
    add_offers(ranged, unit, 0, &mut amounts.raising[..top]);
    add_orders(ranged, unit, direction, amounts);
    fit_of(ranged, unit as usize - 1, amounts)
}
