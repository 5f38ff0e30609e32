// What of each order of one side is filled: better prices wholly, and those at the margin by their share.
ghost use Rattle.std.specs.Prelude.{◌≡◌, sum, ◌+◌, ◌≤◌, length, take};
ghost use Rattle.measures.specs.Lists.{keep};
ghost use Rattle.measures.specs.Ranges.{most_energy};
ghost use Rattle.matching.specs.declared.fills.Which.TheVariants.{Better, Margin};
ghost use Rattle.matching.specs.Memory.{as_order};
ghost use Rattle.matching.specs.Clearing.{fills_of};
ghost use Rattle.matching.specs.Inner.Places.{orders_at, chosen, picked, Picked, AtMargin, fills_at, Filling};

use crate::laying::Laid;
use crate::orders::{Direction, Order};
use measures::{Energy, Price};

// What is filled: the places of orders, and beside each its amount. They stand in two slices, since sharing writes plain words, and
// in fixed memory, which is filled from the front; how many they are is returned. A match's are taken off as a clear's are. That they
// are fills of so many orders (`Filling`) stays a clause: with that count in the struct, a clause that the counts agree would come
// in its place.
#[derive(Clone, Copy)]
pub(crate) struct Fills<'a> {
    pub places: &'a [usize],
    pub amounts: &'a [u64],
}

// Which orders of a side are picked: those of a better price than the margin's, or those at it. By a closure for each, the direction
// would be matched where they are made, and the definition would still name the three sets.
#[derive(Clone, Copy, Debug, PartialEq, Eq)]
pub(crate) enum Which {
    Better(Direction),
    Margin,
}

// Whether an order is one of those.
fn at_price(which: Which, margin: Price, o: Order) -> bool
    ensures { result ≡ chosen which margin.0 (as_order o) }
{
    match which {
        Which::Better(Direction::Buy) => margin < o.price,
        Which::Better(Direction::Sell) => o.price < margin,
        Which::Margin => o.price == margin,
    }
}

// Puts the places that are chosen behind the first of `to`, and what is open there behind the first of `amounts`.
fn pick(
    laid: Laid<'_, '_>,
    which: Which,
    margin: Price,
    to: &mut [usize; 256],
    amounts: &mut [u64; 256],
    first: usize,
) -> usize
    requires { first + length (picked laid.orders.words.now which margin.0 laid.places.now) ≤ 256 }
    ensures { let m = laid.entry.orders.words.now in
        Picked m (picked m which margin.0 laid.entry.places.now) to.old amounts.old first result to.new amounts.new }
{
    // a cursor for both tables: `filter` and `enumerate` would count the chosen, but that count ends with the loop
    let mut r = first;
    for p in laid.places {
        let o = laid.orders.read(*p);
        if at_price(which, margin, o) {
            to[r] = *p;
            amounts[r] = o.quantity.0;
            r += 1;
        }
    }
    r
}

// The sum of the amounts.
fn together(amounts: &[u64]) -> Energy
    requires { sum amounts.now ≤ most_energy }
    ensures { result.0 ≡ sum amounts.now }
{
    let mut sum = Energy(0);
    for amount in amounts {
        sum = sum.plus(Energy(*amount));
    }
    sum
}

// The fills of one side's laid orders, of a volume and a margin; how many they are.
pub(crate) fn fill(
    laid: Laid<'_, '_>,
    direction: Direction,
    volume: Energy,
    margin: Price,
    to: &mut [usize; 256],
    amounts: &mut [u64; 256],
) -> usize
    requires { let os = orders_at laid.orders.words.now laid.places.now in
        AtMargin volume.0 (keep (chosen (Better direction) margin.0) os) (keep (chosen Margin margin.0) os) }
    ensures { let m = laid.entry.orders.words.now in let n = laid.entry.orders.count in let os = orders_at m laid.entry.places.now in
        (result ≤ length laid.entry.places.now) × (result ≤ n) × Filling (take result to.new) (take result amounts.new) n
        × (fills_at m (take result to.new) (take result amounts.new)
        ≡ fills_of volume.0 (keep (chosen (Better direction) margin.0) os) (keep (chosen Margin margin.0) os)) }
{
    let mut open = [0u64; 256];
    let better = pick(laid, Which::Better(direction), margin, to, amounts, 0);
    let all = pick(laid, Which::Margin, margin, to, &mut open, better);
    let first = together(&amounts[..better]);
    // what is open at the margin is at least what is left of the volume, so it refuses nothing
    let _ = measures::share(
        volume.minus(first),
        &open[better..all],
        &mut amounts[better..all],
    );
    all
}
