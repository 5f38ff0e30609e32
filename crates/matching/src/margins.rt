// The volume of a clear and its margins, by one walk along the laid bids and asks.
ghost use Rattle.std.specs.Prelude.{◌≡◌};
ghost use Rattle.matching.specs.Inner.Places.{orders_at, Sides, AreMargins};

use crate::laying::Laid;
use measures::{Energy, Price};

// A volume, and the prices of the bid and the ask that hold its last kWh. A volume of 0 is one too: the walk adds to it
// from there, and an `Option` would be taken apart at each step.
#[derive(Clone, Copy)]
pub struct Margins {
    pub volume: Energy,
    pub bid: Price,
    pub ask: Price,
}

// The margins: the smaller remainder of the next bid and ask is met for as long as their prices meet.
pub(crate) fn find_margins(bids: Laid<'_, '_>, asks: Laid<'_, '_>) -> Margins
    requires { (asks.orders.words.now ≡ bids.orders.words.now)
        × Sides bids.orders.words.now bids.places.now asks.places.now bids.orders.count }
    ensures { let m = bids.entry.orders.words.now in AreMargins (orders_at m bids.entry.places.now) (orders_at m asks.entry.places.now)
        result.volume.0 result.bid.0 result.ask.0 }
{
    let mut margins = Margins {
        volume: Energy(0),
        bid: Price(0),
        ask: Price(0),
    };
    let mut i: usize = 0;
    let mut j: usize = 0;
    let mut demand = bids.open_at(0);
    let mut supply = asks.open_at(0);
    // two indexes: the walk goes on along one side or the other, as no one iterator does, and an index tells where the other stands
    while i < bids.places.len() {
        if j == asks.places.len() {
            return margins;
        }
        let b = bids.read(i);
        let s = asks.read(j);
        let bid = b.price;
        let ask = s.price;
        if !bid.meets(ask) {
            return margins;
        }
        if demand == Energy(0) {
            i += 1;
            demand = bids.open_at(i);
        } else if supply == Energy(0) {
            j += 1;
            supply = asks.open_at(j);
        } else {
            let x = demand.min(supply);
            let volume = margins.volume.plus(x);
            margins = Margins { volume, bid, ask };
            demand = demand.minus(x);
            supply = supply.minus(x);
        }
    }
    margins
}
