// Clearing all periods, one after the other: paper 01, "The eight calls", Clear.
ghost use Rattle.std.specs.Prelude.{◌≡◌, ℕ, ◌<◌, ◌≤◌, get_or};
ghost use Rattle.measures.specs.Lists.{Each};
ghost use Rattle.matching.specs.Memory.{most_word, orders_in};
ghost use Rattle.matching.specs.Prices.{high_with, low_with};
ghost use Rattle.matching.specs.Answers.{ClearsAll};
ghost use Rattle.matching.specs.Inner.Periods.{Clearable, PricedBy, prices_meet, Stepped, PassedAll};

use crate::clearing::clear_fit;
use crate::fitness::fits_below;
use crate::orders::{Cleared, Direction, OpenOrders, Row};
use measures::Price;

// Enters the price of an order of period p in lists of any length: `high` has the price next above the highest buy price of each
// period so far, `low` the lowest sell price. A period past the lists is passed over. The direction is a word of memory, in which any
// number may stand. By `if`: a `max` and a `min` would set a word to itself where nothing changes, which the definition does not.
#[tactic(auto, unfolding(crate::specs::Prices::high_with, crate::specs::Prices::low_with))]
pub fn note_price(direction: u64, p: usize, price: Price, high: &mut [u64], low: &mut [u64])
    ensures { (high.new ≡ high_with direction p price.0 high.old)
        × (low.new ≡ low_with direction p price.0 low.old) }
{
    if direction == u64::from(Direction::Buy) {
        if p >= high.len() {
            return;
        }
        if Price(high[p]) <= price {
            high[p] = price.next().0;
        }
        return;
    }
    if p >= low.len() {
        return;
    }
    if price < Price(low[p]) {
        low[p] = price.0;
    }
}

// The prices of orders, by period, as `note_price` notes them: 0 and the largest number are the bounds where none is noted. Two
// lists, since `note_price`, which is public, takes them so.
#[derive(Clone, Copy)]
pub struct Prices<const PERIODS: usize> {
    pub high: [u64; PERIODS],
    pub low: [u64; PERIODS],
}

impl<const PERIODS: usize> Prices<PERIODS> {
    // Prices where none is noted.
    pub fn none() -> Prices<PERIODS>
        ensures { ((p : ℕ) → p < PERIODS → get_or result.high p 0 ≡ 0)
            × ((p : ℕ) → p < PERIODS → get_or result.low p 0 ≡ most_word) }
    {
        Prices {
            high: [0; PERIODS],
            low: [u64::MAX; PERIODS],
        }
    }

    // Enters the price of an order of period p.
    pub fn note(&mut self, direction: u64, p: usize, price: Price)
        ensures { (self.new.high ≡ high_with direction p price.0 self.old.high)
            × (self.new.low ≡ low_with direction p price.0 self.old.low) }
    {
        note_price(direction, p, price, &mut self.high, &mut self.low);
    }

    // Whether a bid and an ask of period p may meet, by the prices noted.
    #[tactic(auto, unfolding(crate::specs::Inner::Periods::prices_meet))]
    fn meet(&self, p: usize) -> bool
        requires { p < PERIODS }
        ensures { result ≡ prices_meet self.now.high self.now.low p }
    {
        let high = self.high[p];
        let top = Price(high);
        if top == Price(u64::MAX) {
            return true;
        }
        Price(self.low[p]) < top
    }
}

// Enters the prices of the orders.
fn note_prices(orders: OpenOrders<'_>, prices: &mut Prices<744>)
    ensures { Each (PricedBy prices.new.high prices.new.low) (orders_in orders.entry.words.now orders.entry.count) }
{
    for k in 0..orders.count {
        let o = orders.read(k);
        prices.note(o.direction, o.period as usize, o.price);
    }
}

// Clears a period; its rows go behind those that were written.
fn clear_one(orders: &mut [u64], cleared: Cleared, period: u64, rows: &mut [u64]) -> Cleared
    requires { Clearable orders.old rows.old cleared.standing cleared.count }
    ensures { Stepped orders.old rows.old cleared.standing period cleared.count result.count
        result.standing orders.new rows.new }
{
    let behind = &mut rows[Row::WORDS * cleared.count..];
    let done = clear_fit(orders, cleared.standing, period, behind);
    Cleared {
        count: cleared.count + done.count,
        standing: done.standing,
    }
}

// Clears a period, if a bid and an ask in it may meet.
fn clear_met(
    orders: &mut [u64],
    cleared: Cleared,
    period: u64,
    rows: &mut [u64],
    prices: &Prices<744>,
) -> Cleared
    requires { (Clearable orders.old rows.old cleared.standing cleared.count) × (period < 744)
        × (Each (PricedBy prices.now.high prices.now.low) (orders_in orders.old cleared.standing)) }
    ensures { Stepped orders.old rows.old cleared.standing period cleared.count result.count
        result.standing orders.new rows.new }
{
    if !prices.meet(period as usize) {
        return cleared;
    }
    clear_one(orders, cleared, period, rows)
}

// Clears each period below `end` of orders that are fit for it; periods in which no prices meet are skipped.
fn clear_each(orders: &mut [u64], n: usize, end: u64, rows: &mut [u64]) -> Cleared
    requires { (Clearable orders.old rows.old n n) × (end ≤ 744) }
    ensures { PassedAll orders.old rows.old n end result.count result.standing orders.new rows.new }
{
    // in their place: a table that `none` gives is written and then copied, which took a clear without orders half as long again
    let mut prices = Prices {
        high: [0; 744],
        low: [u64::MAX; 744],
    };
    let open = OpenOrders::new(orders, n);
    note_prices(open, &mut prices);
    let mut cleared = Cleared {
        count: 0,
        standing: n,
    };
    for p in 0..end {
        cleared = clear_met(orders, cleared, p, rows, &prices);
    }
    cleared
}

// Clears the periods below `end` of the first n orders: the rows, how many they are, and how many orders then stand. Orders
// that do not fit stay as they are, and `None` is returned.
pub fn clear_periods(orders: &mut [u64], n: usize, end: u64, rows: &mut [u64]) -> Option<Cleared>
    ensures { ClearsAll orders.old rows.old n end result orders.new rows.new }
{
    if !fits_below(orders, n, end, rows) {
        return None;
    }
    Some(clear_each(orders, n, end, rows))
}
