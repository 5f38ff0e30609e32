// The pass over the figures of a unit's day: its tests are joined in one word and made once, so that no hour branches. Tests hour
// by hour, the plain form, were tried in plain Rust: the pass over a day of 64 units then takes some 5 µs in place of less than 2,
// and a check of 64 units would miss its bar of 0.8 times the second engine.
ghost use Rattle.std.specs.Prelude.{◌≡◌, ℕ, ◌+◌, ◌<◌, ◌≤◌, length, slice_index};
ghost use Rattle.measures.specs.Ranges.{most_energy};
ghost use Rattle.book.specs.Layout.{DAYS, UNITS, day_place, word};
ghost use Rattle.book.specs.Inner.Fitting.{Below, Added};
ghost use Rattle.book.specs.Inner.Pass.{Same, Low, most_open, Joined, CellFits, Passed, day_cell, Together, DaysJoined, HourTable};

use crate::lent::{RangedBook, ReadableBook};
use crate::places::{BLOCK, DAY_WORDS, FIGURES, HOURS};
use crate::ranges::unit_at;
use crate::trades::{Figures, figures_from};
use limits::Kind;
use std::array;

// The largest word that is no fault.
pub(crate) const LOW: u64 = 1_099_511_627_775;

// Two words joined: below a power of 2 where both are.
pub(crate) fn joined(a: u64, b: u64) -> u64
    ensures { Joined a b result }
{
    a | b
}

// What a cell adds to the word of faults, where x raises and y lowers: it stays below 2^40 where the cell fits.
fn cell(bad: u64, hour: Figures, limit: u64, x: u64, y: u64) -> u64
    requires { (limit ≤ 5000000) × (Low x) × (Low y) }
    ensures { Same (Low result) (Low bad × CellFits hour.held.0 hour.raised.0 hour.lowered.0 hour.volume.0 limit x y) }
{
    let up = hour.held.0.wrapping_add(hour.raised.0.wrapping_add(x));
    let down = hour.lowered.0.wrapping_add(y);
    let over = limit.wrapping_sub(up);
    let under = hour.held.0.wrapping_sub(down);
    let a = joined(bad, hour.raised.0);
    let b = joined(a, hour.lowered.0);
    let c = joined(b, hour.volume.0);
    let d = joined(c, over);
    joined(d, under)
}

// What a pass comes to: the words of faults, and sums that are true where there is no fault.
#[derive(Clone, Copy)]
pub(crate) struct Sums {
    pub bad: u64,
    pub marks: u64,
    pub whole: u64,
    pub volume: u64,
}

impl Sums {
    // Those of no hour.
    const NONE: Sums = Sums {
        bad: 0,
        marks: 0,
        whole: 0,
        volume: 0,
    };
}

// What raises and what lowers a unit, by hour of a day or by period: two tables and no table of pairs, since offers raise alone,
// and their table is handed on by itself.
#[derive(Clone, Copy)]
pub(crate) struct Amounts<const N: usize> {
    pub raising: [u64; N],
    pub lowering: [u64; N],
}

impl<const N: usize> Amounts<N> {
    // What raises and what lowers at an hour or period.
    pub(crate) fn at(&self, i: usize) -> (u64, u64)
        requires { i < N }
        ensures { (result.0 ≡ slice_index self.now.raising i) × (result.1 ≡ slice_index self.now.lowering i) }
    {
        (self.raising[i], self.lowering[i])
    }
}

// An enrolled unit of a book, and its hour limits. A day is an index, so that it lies in the term stays a clause.
#[derive(Clone, Copy)]
pub(crate) struct UnitAt<'a> {
    pub book: RangedBook<'a>,
    pub place: usize,
    pub limits: &'a [u64; HOURS],
    ghost placed: { place < word book.words.now UNITS },
    ghost limited: { HourTable book.words.now place limits.now },
}

impl UnitAt<'_> {
    // Its number, as orders and offers name it.
    pub(crate) fn number(self) -> u64
        ensures { result ≡ self.entry.place + 1 }
    {
        self.place as u64 + 1
    }
}

// The unit's day d, with what raises and what lowers by hour.
pub(crate) fn day_sums<F: Fn(usize) -> (u64, u64)>(unit: UnitAt<'_>, d: usize, amounts: F) -> Sums
    requires day { d < word unit.book.words.now DAYS }
    requires asked { (h : ℕ) → h < 24 → F.pre amounts h }
    requires small { (h : ℕ) (z : _) → h < 24 → F.post amounts h z → (z.0 ≤ most_open) × (z.1 ≤ most_open) }
    ensures { (x y : ℕ → ℕ) → ((h : ℕ) (z : _) → h < 24 → F.post amounts h z → (z.0 ≡ x h) × (z.1 ≡ y h))
        → Passed 24 (day_cell unit.entry.book.words.now (day_place d unit.entry.place) unit.entry.limits.now x y) result }
{
    let book = unit.book.words;
    let at = FIGURES + DAY_WORDS * d + BLOCK * unit.place;
    let mut s = Sums::NONE;
    for h in 0..HOURS {
        let hour = figures_from(book, at + h);
        let (x, y) = amounts(h);
        let whole = hour.held.0.wrapping_add(hour.raised.0.wrapping_add(x));
        let volume = hour.volume.0.wrapping_add(x + y);
        s = Sums {
            bad: cell(s.bad, hour, unit.limits[h], x, y),
            marks: joined(s.marks, hour.mark.0),
            whole: s.whole.wrapping_add(whole),
            volume: s.volume.wrapping_add(volume),
        };
    }
    s
}

// Two passes joined.
pub(crate) fn together(a: Sums, b: Sums) -> Sums
    ensures { Together a b result }
{
    Sums {
        bad: joined(a.bad, b.bad),
        marks: joined(a.marks, b.marks),
        whole: a.whole.wrapping_add(b.whole),
        volume: a.volume.wrapping_add(b.volume),
    }
}

// The passes over so many days, joined.
pub(crate) fn all_days<F: Fn(usize) -> Sums>(days: usize, day: F) -> Sums
    requires { (days ≤ 31) × ((d : ℕ) → d < days → F.pre day d) }
    ensures { DaysJoined (λ d s. F.post day d s) days result }
{
    let mut s = Sums::NONE;
    for d in 0..days {
        s = together(s, day(d));
    }
    s
}

// The hour limits of the unit at place k.
pub(crate) fn hour_limits(book: RangedBook<'_>, k: usize) -> [u64; HOURS]
    requires { k < word book.words.now UNITS }
    ensures { HourTable book.entry.words.now k result }
{
    let unit = unit_at(ReadableBook { words: book.words }, k);
    let Ok(kind) = Kind::try_from(unit.kind) else {
        unreachable!()
    };
    array::from_fn(|h| kind.hour_limit(unit.capacity, h as u64).0)
}

// Adds amounts to as many totals. A `zip` of both was tried; its proof did not close, for what is written through it is not known.
pub(crate) fn add_amounts(amounts: &[u64], totals: &mut [u64])
    requires { (length amounts.now ≡ length totals.old) × (Below most_energy amounts.now) × (Below 2000000000000 totals.old) }
    ensures { Added (length totals.old) totals.old totals.new (λ i. slice_index amounts.now i) most_energy }
{
    for (i, total) in totals.iter_mut().enumerate() {
        *total += amounts[i];
    }
}
