// Whether all units fit with what they have open: one pass over the figures, unit by unit and day by day.
ghost use Rattle.std.specs.Prelude.{◌≡◌, ℕ, ◌+◌, ◌<◌, false};
ghost use Rattle.book.specs.Layout.{DAYS, UNITS, OFFERS, word, decode};
ghost use Rattle.book.specs.Inner.Readable.{units_whole};
ghost use Rattle.book.specs.Inner.Fitting.{unit_holds};
ghost use Rattle.book.specs.Inner.Pass.{UnitPass};
ghost use Rattle.book.specs.Inner.Whole.{DayLinks, open_up, open_down, OffersOther, DayPass};

use crate::fits::sums_came;
use crate::lent::RangedBook;
use crate::pass::{Amounts, Sums, UnitAt, all_days, day_sums, hour_limits};
use crate::places::{DAYS, UNITS};
use crate::ranges::every;
use crate::standing::{LinkedUnit, Links, day_open, gather_day, has_offer};
use crate::trades::Mark;

// A unit's day d, with what it has open.
fn full_day(unit: LinkedUnit<'_>, d: usize) -> Sums
    requires { d < word unit.at.book.words.now DAYS }
    ensures { DayPass unit.entry.at.book.words.now unit.entry.at.place d unit.entry.at.limits.now result }
{
    let mut amounts = Amounts {
        raising: [0; 24],
        lowering: [0; 24],
    };
    gather_day(unit, d, &mut amounts);
    day_sums(unit.at, d, |h| amounts.at(h))
}

// The same, where a day with nothing open is passed without tables.
fn whole_day(unit: LinkedUnit<'_>, d: usize, offered: bool) -> Sums
    requires { (d < word unit.at.book.words.now DAYS)
        × (offered ≡ false → OffersOther unit.at.book.words.now (unit.at.place + 1) (word unit.at.book.words.now OFFERS)) }
    ensures { DayPass unit.entry.at.book.words.now unit.entry.at.place d unit.entry.at.limits.now result }
{
    if offered || day_open(unit, d) {
        return full_day(unit, d);
    }
    day_sums(unit.at, d, |_| (0, 0))
}

// All days of a unit.
fn whole_unit(unit: LinkedUnit<'_>) -> Sums
    ensures { UnitPass unit.entry.at.book.words.now unit.entry.at.place (open_up unit.entry.at.book.words.now unit.entry.at.place)
        (open_down unit.entry.at.book.words.now unit.entry.at.place) result }
{
    let offered = has_offer(unit.at.book, unit.at.number());
    all_days(unit.at.book.words[DAYS] as usize, |d| {
        whole_day(unit, d, offered)
    })
}

// Whether a unit fits, by what the pass over its periods came to.
fn sums_fit(unit: UnitAt<'_>, s: Sums) -> bool
    ensures { (x y : ℕ → ℕ) → UnitPass unit.entry.book.words.now unit.entry.place x y s
        → result ≡ unit_holds unit.entry.book.words.now unit.entry.place x y }
{
    if Mark::BOTH.0 < s.marks {
        return false;
    }
    sums_came(unit, s).is_ok()
}

// Whether the unit at place k fits with what it has open.
fn unit_fits<'a>(book: RangedBook<'a>, k: usize, days: Links<'a>) -> bool
    requires { (k < word book.words.now UNITS) × (DayLinks book.words.now days) }
    ensures { result ≡ unit_holds book.entry.words.now k (open_up book.entry.words.now k) (open_down book.entry.words.now k) }
{
    let limits = hour_limits(book, k);
    let at = UnitAt {
        book,
        place: k,
        limits: &limits,
    };
    sums_fit(at, whole_unit(LinkedUnit { at, days }))
}

// Whether all units do, where the orders are linked by unit and day.
pub(crate) fn units_fit(book: RangedBook<'_>, days: Links<'_>) -> bool
    requires { DayLinks book.words.now days }
    ensures { result ≡ units_whole (decode book.entry.words.now) }
{
    every(book.words[UNITS] as usize, |k| unit_fits(book, k, days))
}
