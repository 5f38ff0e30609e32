// What fills leave of the orders: each is taken off at its place, and an emptied order goes.
ghost use Rattle.std.specs.Prelude.{◌≡◌, true, ◌*◌, ◌<◌, ◌≤◌, length, take, drop};
ghost use Rattle.matching.specs.Orders.{rising, numbers, lessen};
ghost use Rattle.matching.specs.Memory.{order_words, order_at, orders_in};
ghost use Rattle.matching.specs.Clearing.{after_fills};
ghost use Rattle.matching.specs.Inner.Places.{standing, fills_at, Filling, Taken};

use crate::fills::Fills;
use measures::Energy;

// Takes x off the order at p; an emptied order stands no longer.
fn take_fill(orders: &mut [u64], n: usize, stands: &mut [bool; 256], p: usize, x: Energy)
    requires { (order_words * n ≤ length orders.old) × (n ≤ 256) × (p < n)
        × (rising (numbers (orders_in orders.old n)) ≡ true) }
    ensures { Taken orders.old stands.old n
        (lessen (order_at orders.old p).number x.0 (standing (take n stands.old) (orders_in orders.old n)))
        orders.new stands.new }
{
    let o = crate::orders::read(orders, p);
    if o.quantity <= x {
        stands[p] = false;
        return;
    }
    crate::orders::leave(orders, n, p, o.quantity.minus(x));
}

// Takes fills off, one by one.
fn take_fills(orders: &mut [u64], n: usize, stands: &mut [bool; 256], fills: Fills)
    requires { (order_words * n ≤ length orders.old) × (n ≤ 256) × (rising (numbers (orders_in orders.old n)) ≡ true)
        × Filling fills.places.now fills.amounts.now n }
    ensures { Taken orders.old stands.old n
        (after_fills (fills_at orders.old fills.entry.places.now fills.entry.amounts.now)
        (standing (take n stands.old) (orders_in orders.old n))) orders.new stands.new }
{
    for (p, x) in fills.places.iter().zip(fills.amounts) {
        take_fill(orders, n, stands, *p, Energy(*x));
    }
}

// The orders that stand move up, in their order; how many they are. By hand, as the words are lent: a slice has no `retain`.
fn close_gaps(orders: &mut [u64], n: usize, stands: &[bool; 256]) -> usize
    requires { (order_words * n ≤ length orders.old) × (n ≤ 256) }
    ensures { (orders_in orders.new result ≡ standing (take n stands.now) (orders_in orders.old n))
        × (drop (order_words * n) orders.new ≡ drop (order_words * n) orders.old) }
{
    let mut to: usize = 0;
    for k in 0..n {
        if !stands[k] {
            continue;
        }
        if to < k {
            let o = crate::orders::read(orders, k);
            crate::orders::write_at(orders, n, to, o);
        }
        to += 1;
    }
    to
}

// What is left of the orders after the fills of bids and of asks; how many stand. Where one order met others, its side has no fills: a
// list of sides would be no plainer. That an order stands is a mark in a table beside the orders, which have no word for it.
pub(crate) fn leave_rests(orders: &mut [u64], n: usize, bids: Fills, asks: Fills) -> usize
    requires { (order_words * n ≤ length orders.old) × (n ≤ 256) × (rising (numbers (orders_in orders.old n)) ≡ true) × Filling bids.places.now bids.amounts.now n
        × Filling asks.places.now asks.amounts.now n }
    ensures { (orders_in orders.new result ≡ after_fills (fills_at orders.old asks.entry.places.now asks.entry.amounts.now)
        (after_fills (fills_at orders.old bids.entry.places.now bids.entry.amounts.now) (orders_in orders.old n)))
        × (drop (order_words * n) orders.new ≡ drop (order_words * n) orders.old) }
{
    let mut stands = [true; 256];
    take_fills(orders, n, &mut stands, bids);
    take_fills(orders, n, &mut stands, asks);
    close_gaps(orders, n, &stands)
}
