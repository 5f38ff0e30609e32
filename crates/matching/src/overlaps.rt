// Rows of the overlaps of two sides' fills, laid end to end.
ghost use Rattle.std.specs.Prelude.{◌≡◌, cond, List, [], ◌∷◌, ◌++◌, ℕ, ◌+◌, ◌*◌, ◌-◌, ◌<◌, ◌≤◌, min, max, eqb, length, get_or};
ghost use Rattle.measures.specs.Ranges.{most_energy};
ghost use Rattle.matching.specs.Orders.{Row as RowRecord};
ghost use Rattle.matching.specs.Memory.{order_at, row_words, as_row, written};
ghost use Rattle.matching.specs.Clearing.{end_to_end, overlap_rows};
ghost use Rattle.matching.specs.Inner.Places.{fills_at, Filling};

use crate::fills::Fills;
use crate::orders::{OpenOrders, Row, Way};
use measures::{Energy, Price};

// A fill laid end to end with those before it: the order's unit, and the kWh from `from` up to `upto`.
#[derive(Clone, Copy)]
pub struct Span {
    pub unit: u64,
    pub from: Energy,
    pub upto: Energy,
}

impl Span {
    // What two spans share.
    pub fn overlap(self, other: Span) -> Energy
        ensures { result.0 ≡ min self.upto.0 other.upto.0 - max self.from.0 other.from.0 }
    {
        let from = self.from.max(other.from);
        self.upto.min(other.upto).minus(from)
    }
}

// Writes a row behind the count rows that stand, unless its quantity is 0; how many then stand.
fn put_some(rows: &mut [u64], count: usize, r: Row) -> usize
    requires { (row_words * count + row_words ≤ length rows.old) × (count < 1000000) }
    ensures { (m : List ℕ) (rs : List RowRecord) → length rs ≡ count → rows.old ≡ written m rs
        → (rows.new ≡ written m (rs ++ cond (eqb r.quantity.0 0) [] (as_row r ∷ [])))
        × (length (rs ++ cond (eqb r.quantity.0 0) [] (as_row r ∷ [])) ≡ result) × (result ≤ count + 1) }
{
    if r.quantity == Energy(0) {
        return count;
    }
    crate::orders::put_row_at(rows, count, r);
    count + 1
}

// The span of fill i, which begins at `from`.
fn span_at(orders: OpenOrders<'_>, fills: Fills, i: usize, from: Energy) -> Span
    requires { (i < length fills.places.now) × (i < length fills.amounts.now) × (get_or fills.places.now i 0 < orders.count)
        × (from.0 + get_or fills.amounts.now i 0 ≤ most_energy) }
    ensures { (result.unit ≡ (order_at orders.entry.words.now (get_or fills.entry.places.now i 0)).unit) × (result.from.0 ≡ from.0)
        × (result.upto.0 ≡ from.0 + get_or fills.entry.amounts.now i 0) }
{
    let o = orders.read(fills.places[i]);
    let upto = from.plus(Energy(fills.amounts[i]));
    Span {
        unit: o.unit,
        from,
        upto,
    }
}

// The rows of all overlaps, in one walk along both sides; how many they are.
pub(crate) fn put_overlaps(
    orders: OpenOrders<'_>,
    period: u64,
    price: Price,
    bids: Fills,
    asks: Fills,
    rows: &mut [u64],
) -> usize
    requires { (row_words * orders.count ≤ length rows.old) × (length bids.places.now + length asks.places.now ≤ orders.count)
        × Filling bids.places.now bids.amounts.now orders.count × Filling asks.places.now asks.amounts.now orders.count }
    ensures { let bought = fills_at orders.entry.words.now bids.entry.places.now bids.entry.amounts.now in
        let sold = fills_at orders.entry.words.now asks.entry.places.now asks.entry.amounts.now in
        let shared = overlap_rows period price.0 (end_to_end 0 bought) (end_to_end 0 sold) in
        (rows.new ≡ written rows.old shared) × (result ≡ length shared) }
{
    let mut i: usize = 0;
    let mut j: usize = 0;
    let mut a = Energy(0);
    let mut e = Energy(0);
    let mut count: usize = 0;
    // two indexes: the walk goes on along one side or the other, as no one iterator does, and an index tells where the other stands
    while i < bids.places.len() {
        if j == asks.places.len() {
            return count;
        }
        let bid = span_at(orders, bids, i, a);
        let ask = span_at(orders, asks, j, e);
        let quantity = bid.overlap(ask);
        count = put_some(
            rows,
            count,
            Row {
                way: u64::from(Way::Clear),
                period,
                seller: ask.unit,
                buyer: bid.unit,
                quantity,
                price,
            },
        );
        if bid.upto <= ask.upto {
            a = bid.upto;
            i += 1;
        } else {
            e = ask.upto;
            j += 1;
        }
    }
    count
}
