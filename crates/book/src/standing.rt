// What a unit has open, by hour of a day or by period: orders are linked by unit and day, so that each is read once, and by period.
ghost use Rattle.std.specs.Prelude.{◌≡◌, ◌+◌, ◌-◌, ◌*◌, ◌<◌, ◌≤◌, false, length, slice_index, slice_set};
ghost use Rattle.measures.specs.Ranges.{most_energy};
ghost use Rattle.measures.specs.Lists.{sum};
ghost use Rattle.limits.specs.Units.{periods};
ghost use Rattle.matching.specs.Memory.{direction_number};
ghost use Rattle.book.specs.Layout.{DAYS, OFFERS, ORDERS, word};
ghost use Rattle.book.specs.Inner.Readable.{small};
ghost use Rattle.book.specs.Inner.Fitting.{Below, offer_share, order_share, Added};
ghost use Rattle.book.specs.Inner.Whole.{
  by_period,
  by_day,
  link_of,
  Latest,
  Linked,
  DayLinks,
  raising_direction,
  BothBelow,
  BothAdded,
  share_in,
  Gathered,
  OffersOther,
  DayIdle,
};

use crate::lent::{RangedBook, ReadableBook};
use crate::numbers::find;
use crate::pass::{Amounts, UnitAt, add_amounts};
use crate::places::{
    AMOUNT_WORDS, AMOUNTS, DIRECTION, HOURS, OFFER_TABLE, OFFER_WORDS, OFFERS, ORDER_TABLE,
    ORDER_WORDS, ORDERS, PERIOD, QUANTITY, UNIT,
};
use crate::ranges::raising_direction;
use matching::orders::Direction;

// Links the order at place k by its key: one more than its place is then the last of the key, and what was the last stands before it.
fn link(last: &mut [u64], before: &mut [u64], key: usize, k: usize)
    requires { (key < length last.old) × (k < length before.old) × (k < 256) }
    ensures { (last.new ≡ slice_set last.old key (k + 1)) × (before.new ≡ slice_set before.old k (slice_index last.old key)) }
{
    before[k] = last[key];
    last[key] = k as u64 + 1;
}

// Links the orders by unit and day and by period: `last` gets one more than the place of the last order of each unit and
// day, `own` one more than the place of the order before each of its unit and day, and `firsts` and `peers` the same by
// period; 0 is none. Four tables and no struct for two: behind a `&mut` it would tell a proof nothing of their lengths.
#[tactic(auto, using(crate::proofs::Laws::Check::ShareLaws::order_ranges))]
pub(crate) fn link_orders(
    book: RangedBook<'_>,
    last: &mut [u64],
    own: &mut [u64],
    firsts: &mut [u64],
    peers: &mut [u64],
)
    requires { (64 * word book.words.now DAYS ≤ length last.old) × (word book.words.now ORDERS ≤ length own.old) × (Below 0 last.old)
        × (24 * word book.words.now DAYS ≤ length firsts.old) × (word book.words.now ORDERS ≤ length peers.old) × (Below 0 firsts.old) }
    ensures { (Linked (by_day book.entry.words.now) (word book.entry.words.now ORDERS) last.new own.new)
        × (Linked (by_period book.entry.words.now) (word book.entry.words.now ORDERS) firsts.new peers.new) }
{
    let n = book.words[ORDERS] as usize;
    for k in 0..n {
        let at = ORDER_TABLE + ORDER_WORDS * k;
        let p = book.words[at + PERIOD] as usize;
        let u = book.words[at + UNIT] as usize - 1;
        link(last, own, 64 * (p / HOURS) + u, k);
        link(firsts, peers, p, k);
    }
}

// Orders linked by a key, as `link_orders` leaves them: a link is one more than an order's place, and 0 is none. `last` and
// `before` give it as an `Option`; tables of `Option`s would take twice the words, which each check empties first. That they link
// a book's orders is known of a `LinkedUnit` and of a `ChainedBook`; it stays a clause (`DayLinks`) where a `LinkedUnit` is made, in two
// functions of `whole`.
#[derive(Clone, Copy)]
pub(crate) struct Links<'a> {
    pub last: &'a [u64],
    pub before: &'a [u64],
}

// The place that a link names.
fn linked(link: u64) -> Option<usize>
    ensures { link_of result ≡ link }
{
    (link as usize).checked_sub(1)
}

impl Links<'_> {
    // The place of the last order of a key.
    fn last(self, key: usize) -> Option<usize>
        requires { key < length self.last.now }
        ensures { link_of result ≡ slice_index self.entry.last.now key }
    {
        linked(self.last[key])
    }

    // The place of the order before this one of its key.
    pub(crate) fn before(self, i: usize) -> Option<usize>
        requires { i < length self.before.now }
        ensures { link_of result ≡ slice_index self.entry.before.now i }
    {
        linked(self.before[i])
    }
}

// A unit, and the orders of its book linked by unit and day: that they are is known with it.
#[derive(Clone, Copy)]
pub(crate) struct LinkedUnit<'a> {
    pub at: UnitAt<'a>,
    pub days: Links<'a>,
    ghost linked: { DayLinks at.book.words.now days },
}

// The place of a unit's last order on day d.
fn day_head(unit: LinkedUnit<'_>, d: usize) -> Option<usize>
    requires { d < word unit.at.book.words.now DAYS }
    ensures { Latest (by_day unit.entry.at.book.words.now) (64 * d + unit.entry.at.place) (link_of result)
        (word unit.entry.at.book.words.now ORDERS) }
{
    if unit.at.book.words[ORDERS] == 0 {
        return None;
    }
    unit.days.last(64 * d + unit.at.place)
}

// The amounts of the offer at place j from a period on, as many as there are totals, if it is the unit's.
fn add_offer(book: RangedBook<'_>, unit: u64, j: usize, from: usize, totals: &mut [u64])
    requires { (j < word book.words.now OFFERS) × (from + length totals.old ≤ periods (word book.words.now DAYS))
        × (Below 2000000000000 totals.old) }
    ensures { Added (length totals.old) totals.old totals.new (λ h. offer_share book.entry.words.now unit j (from + h)) most_energy }
{
    if book.words[OFFER_TABLE + OFFER_WORDS * j + UNIT] != unit {
        return;
    }
    let at = AMOUNTS + AMOUNT_WORDS * j + from;
    add_amounts(&book.words[at..at + totals.len()], totals);
}

// Those of all of the unit's offers.
pub(crate) fn add_offers(book: RangedBook<'_>, unit: u64, from: usize, totals: &mut [u64])
    requires { (from + length totals.old ≤ periods (word book.words.now DAYS)) × (small totals.old) }
    ensures { Added (length totals.old) totals.old totals.new
        (λ h. sum (word book.entry.words.now OFFERS) (λ j. offer_share book.entry.words.now unit j (from + h))) 32000000000 }
{
    let n = book.words[OFFERS] as usize;
    for j in 0..n {
        add_offer(book, unit, j, from, totals);
    }
}

// What the order at place i has open goes to its hour, or to its period in tables of all periods: it raises if it is of this direction.
#[tactic(auto, using(crate::proofs::Laws::Check::ShareLaws::order_ranges))]
pub(crate) fn add_order<const N: usize>(
    book: RangedBook<'_>,
    direction: Direction,
    i: usize,
    amounts: &mut Amounts<N>,
)
    requires { (i < word book.words.now ORDERS) × (0 < N) × (BothBelow 2000000000000 amounts.old) }
    ensures { BothAdded N amounts.old amounts.new (share_in N book.entry.words.now (direction_number direction) i)
        (share_in N book.entry.words.now (1 - direction_number direction) i) most_energy }
{
    let at = ORDER_TABLE + ORDER_WORDS * i;
    let h = book.words[at + PERIOD] as usize % N;
    let quantity = book.words[at + QUANTITY];
    if book.words[at + DIRECTION] == u64::from(direction) {
        amounts.raising[h] += quantity;
    } else {
        amounts.lowering[h] += quantity;
    }
}

// What a unit's orders have open on day d.
fn add_day_orders(unit: LinkedUnit<'_>, d: usize, amounts: &mut Amounts<24>)
    requires { (d < word unit.at.book.words.now DAYS) × (BothBelow 36000000000 amounts.old) }
    ensures { BothAdded 24 amounts.old amounts.new
        (λ h. sum (word unit.entry.at.book.words.now ORDERS) (λ i. order_share unit.entry.at.book.words.now (unit.entry.at.place + 1)
        (raising_direction unit.entry.at.book.words.now unit.entry.at.place) i (24 * d + h)))
        (λ h. sum (word unit.entry.at.book.words.now ORDERS) (λ i. order_share unit.entry.at.book.words.now (unit.entry.at.place + 1)
        (1 - raising_direction unit.entry.at.book.words.now unit.entry.at.place) i (24 * d + h)))
        1024000000000 }
{
    let book = unit.at.book;
    let direction = raising_direction(ReadableBook { words: book.words }, unit.at.number());
    let mut next = day_head(unit, d);
    // follows links, and counts no index
    while let Some(i) = next {
        add_order(book, direction, i, amounts);
        next = unit.days.before(i);
    }
}

// What a unit has open on day d, where no amount stands yet.
pub(crate) fn gather_day(unit: LinkedUnit<'_>, d: usize, amounts: &mut Amounts<24>)
    requires { (d < word unit.at.book.words.now DAYS) × (BothBelow 0 amounts.old) }
    ensures { Gathered unit.entry.at.book.words.now unit.entry.at.place d amounts.new }
{
    add_offers(
        unit.at.book,
        unit.at.number(),
        HOURS * d,
        &mut amounts.raising,
    );
    add_day_orders(unit, d, amounts);
}

// Whether a unit has an offer.
pub(crate) fn has_offer(book: RangedBook<'_>, unit: u64) -> bool
    ensures { result ≡ false → OffersOther book.entry.words.now unit (word book.entry.words.now OFFERS) }
{
    let n = book.words[OFFERS] as usize;
    find::<OFFER_WORDS>(book.words, OFFER_TABLE + UNIT, n, unit).is_some()
}

// Whether a unit without an offer has something open on day d: an order of that day.
pub(crate) fn day_open(unit: LinkedUnit<'_>, d: usize) -> bool
    requires { (d < word unit.at.book.words.now DAYS)
        × (OffersOther unit.at.book.words.now (unit.at.place + 1) (word unit.at.book.words.now OFFERS)) }
    ensures { result ≡ false → DayIdle unit.entry.at.book.words.now unit.entry.at.place d }
{
    day_head(unit, d).is_some()
}
