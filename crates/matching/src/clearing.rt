// Clearing one period: paper 01, "The eight calls", Clear.
ghost use Rattle.std.specs.Prelude.{◌≡◌, Some, true, ◌<◌};
ghost use Rattle.measures.specs.Lists.{keep};
ghost use Rattle.matching.specs.Orders.{laid};
ghost use Rattle.matching.specs.Memory.{orders_in};
ghost use Rattle.matching.specs.Answers.{fit, Clears};
ghost use Rattle.matching.specs.Inner.Places.{orders_at, ahead_on, belongs, Stand, AreMargins};

use crate::fills::Fills;
use crate::laying::Laid;
use crate::margins::Margins;
use crate::orders::{Cleared, Direction, OpenOrders};
use measures::Energy;

// Trades the volume: fills both sides, writes the rows and leaves the rests. Bids and asks go by their own names: as a
// struct of both they would be taken apart at once, since each side is filled alone. The tables are fixed memory, and no `ArrayVec`: `share`
// writes amounts in their places, so it needs their length first, and places stand beside amounts.
fn trade(
    orders: &mut [u64],
    n: usize,
    period: u64,
    margins: Margins,
    bids: &[usize],
    asks: &[usize],
    rows: &mut [u64],
) -> Cleared
    requires { (fit orders.old n rows.old ≡ true) × (0 < margins.volume.0)
        × Stand orders.old bids.now n (laid (ahead_on 1) (keep (belongs 1 period) (orders_in orders.old n)))
        × Stand orders.old asks.now n (laid (ahead_on 0) (keep (belongs 0 period) (orders_in orders.old n)))
        × AreMargins (orders_at orders.old bids.now) (orders_at orders.old asks.now) margins.volume.0 margins.bid.0 margins.ask.0 }
    ensures { Clears orders.old rows.old n period (Some result) orders.new rows.new }
{
    let mut bid_places = [0; 256];
    let mut ask_places = [0; 256];
    let mut bought = [0; 256];
    let mut sold = [0; 256];
    let open = OpenOrders::new(orders, n);
    let fb = crate::fills::fill(
        Laid {
            orders: open,
            places: bids,
        },
        Direction::Buy,
        margins.volume,
        margins.bid,
        &mut bid_places,
        &mut bought,
    );
    let fa = crate::fills::fill(
        Laid {
            orders: open,
            places: asks,
        },
        Direction::Sell,
        margins.volume,
        margins.ask,
        &mut ask_places,
        &mut sold,
    );
    let price = margins.bid.middle(margins.ask);
    let bids = Fills {
        places: &bid_places[..fb],
        amounts: &bought[..fb],
    };
    let asks = Fills {
        places: &ask_places[..fa],
        amounts: &sold[..fa],
    };
    let count = crate::overlaps::put_overlaps(open, period, price, bids, asks, rows);
    let standing = crate::rests::leave_rests(orders, n, bids, asks);
    Cleared { count, standing }
}

// Clears the orders of a period among the first n, which are fit for it: the rows, how many they are, and how many orders
// then stand.
pub(crate) fn clear_fit(orders: &mut [u64], n: usize, period: u64, rows: &mut [u64]) -> Cleared
    requires { fit orders.old n rows.old ≡ true }
    ensures { Clears orders.old rows.old n period (Some result) orders.new rows.new }
{
    let mut bids = [0; 256];
    let mut asks = [0; 256];
    let open = OpenOrders::new(orders, n);
    let nb = crate::laying::lay(open, Direction::Buy, period, &mut bids);
    let na = crate::laying::lay(open, Direction::Sell, period, &mut asks);
    let margins = crate::margins::find_margins(
        Laid {
            orders: open,
            places: &bids[..nb],
        },
        Laid {
            orders: open,
            places: &asks[..na],
        },
    );
    if margins.volume == Energy(0) {
        return Cleared {
            count: 0,
            standing: n,
        };
    }
    trade(orders, n, period, margins, &bids[..nb], &asks[..na], rows)
}

// The same of any orders; `None` where they are not fit for it. `clear_fit` writes the orders, and is called without a test too, of orders
// that are fit: so it takes the slice, and reads them itself.
pub fn clear_period(orders: &mut [u64], n: usize, period: u64, rows: &mut [u64]) -> Option<Cleared>
    ensures { Clears orders.old rows.old n period result orders.new rows.new }
{
    if !crate::fitness::fits(orders, n, rows) {
        return None;
    }
    Some(clear_fit(orders, n, period, rows))
}
