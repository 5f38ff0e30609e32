// Whether lent orders and rows can be matched and cleared.
ghost use Rattle.std.specs.Prelude.{◌≡◌, true, false, MatchOption, leb};
ghost use Rattle.measures.specs.Ranges.{most_energy};
ghost use Rattle.matching.specs.Orders.{rising, numbers, quantities};
ghost use Rattle.matching.specs.Memory.{orders_in};
ghost use Rattle.matching.specs.Answers.{numbers_rise, fit, fit_below};

use crate::orders::{OpenOrders, Row};
use measures::Energy;

// Whether the numbers of the first n orders rise: each is compared with the one before it; a test of one place, as `every` takes in
// book, would be no plainer.
fn rise(orders: OpenOrders<'_>) -> bool
    ensures { result ≡ rising (numbers (orders_in orders.entry.words.now orders.entry.count)) }
{
    for k in 1..orders.count {
        let o = orders.read(k);
        let before = orders.read(k - 1);
        if o.number <= before.number {
            return false;
        }
    }
    true
}

// Whether the first n orders stand there and their numbers rise.
#[tactic(auto, unfolding(crate::specs::Answers::numbers_rise))]
pub fn numbers_rise(orders: &[u64], n: usize) -> bool
    ensures { result ≡ numbers_rise orders.now n }
{
    let Some(open) = OpenOrders::checked(orders, n) else {
        return false;
    };
    rise(open)
}

// Whether the first n orders have at most Energy::MOST open together.
fn quantities_fit(orders: OpenOrders<'_>) -> bool
    ensures { result ≡ leb (quantities (orders_in orders.entry.words.now orders.entry.count)) most_energy }
{
    let mut sum = Energy(0);
    for k in 0..orders.count {
        let o = orders.read(k);
        sum = sum.plus(o.quantity);
    }
    sum.in_range()
}

// The first n orders, if they can be matched and cleared, with these rows lent.
#[tactic(auto, unfolding(crate::specs::Answers::fit))]
pub(crate) fn fitting<'a>(orders: &'a [u64], n: usize, rows: &[u64]) -> Option<OpenOrders<'a>>
    ensures { MatchOption result (fit orders.now n rows.now ≡ false)
        (λ first. (fit orders.now n rows.now ≡ true) × (first.words.now ≡ orders.now) × (first.count ≡ n)) }
{
    let open = OpenOrders::checked(orders, n)?;
    if rows.len() < Row::WORDS * n {
        return None;
    }
    if !rise(open) {
        return None;
    }
    if !quantities_fit(open) {
        return None;
    }
    Some(open)
}

// Whether the first n orders can be matched and cleared, with these rows lent.
pub fn fits(orders: &[u64], n: usize, rows: &[u64]) -> bool
    ensures { result ≡ fit orders.now n rows.now }
{
    fitting(orders, n, rows).is_some()
}

// Whether the periods below `end` of the first n orders can be cleared one after the other, with these rows lent.
#[tactic(auto, unfolding(crate::specs::Answers::fit_below, crate::specs::Answers::fit))]
pub(crate) fn fits_below(orders: &[u64], n: usize, end: u64, rows: &[u64]) -> bool
    ensures { result ≡ fit_below orders.now n end rows.now }
{
    if !fits(orders, n, rows) {
        return false;
    }
    if rows.len() < Row::WORDS * (2 * n) {
        return false;
    }
    end <= 744
}
