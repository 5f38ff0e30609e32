// Rolling matching: an incoming order meets the waiting ones (paper 01, "The eight calls", Order).
ghost use Rattle.std.specs.Prelude.{◌≡◌, Some, true, cond, MatchOption, List, [], ◌∷◌, ◌++◌, ℕ, ◌+◌, ◌-◌, ◌*◌, ◌<◌, ◌≤◌, min, length};
ghost use Rattle.matching.specs.Orders.{Row as RowRecord, rising, numbers};
ghost use Rattle.matching.specs.Memory.{direction_number, row_words, as_order, as_row, order_at, orders_in, written};
ghost use Rattle.matching.specs.Rolling.{candidate, match_row, meet};
ghost use Rattle.matching.specs.Inner.Runs.{key_of, RunsMet, MetInTurn};
ghost use Rattle.matching.specs.Answers.{Meets, left_over};

use crate::fills::Fills;
use crate::fitness::fitting;
use crate::laying::{First, Runs, Side};
use crate::orders::{Direction, Matched, OpenOrders, Order, Row, Way};
use crate::{laying, orders};
use measures::Energy;

// An incoming order, and the direction that its word names.
#[derive(Clone, Copy)]
struct Incoming {
    order: Order,
    direction: Direction,
    ghost named: { order.direction ≡ direction_number direction },
}

impl Incoming {
    // The order with its direction, if its word names one.
    fn named(order: Order) -> Option<Incoming>
        ensures { MatchOption result (1 < order.direction) (λ incoming. incoming.order ≡ order) }
    {
        let Ok(direction) = Direction::try_from(order.direction) else {
            return None;
        };
        Some(Incoming { order, direction })
    }
}

// What is left of an incoming order, and how many orders it met.
#[derive(Clone, Copy)]
pub struct Meeting {
    pub left: Energy,
    pub count: usize,
}

// The side that an incoming order meets: opposite, of its period, and at a price that it can take.
fn side_met(incoming: Incoming) -> Side
    ensures { let i = incoming.order in (direction_number result.direction ≡ 1 - i.direction) × (result.period ≡ i.period)
        × (result.limit ≡ Some (key_of (1 - i.direction) i.price.0)) }
{
    let direction = incoming.direction.opposite();
    let limit = laying::key_of(direction, incoming.order.price);
    Side {
        direction,
        period: incoming.order.period,
        limit: Some(limit),
    }
}

// The row of a match with a waiting order, at the waiting order's price.
#[tactic(auto, unfolding(crate::specs::Rolling::match_row))]
fn match_row(incoming: Incoming, o: Order, x: Energy) -> Row
    ensures { as_row result ≡ match_row (as_order incoming.order) (record { order = as_order o; quantity = x.0 }) }
{
    let price = o.price;
    let unit = incoming.order.unit;
    let (seller, buyer) = match incoming.direction {
        Direction::Buy => (o.unit, unit),
        Direction::Sell => (unit, o.unit),
    };
    Row {
        way: u64::from(Way::Rolling),
        period: incoming.order.period,
        seller,
        buyer,
        quantity: x,
        price,
    }
}

// Writes the row of a match with the order at place p behind the count rows that stand; what of it is taken.
fn match_at(
    orders: OpenOrders<'_>,
    p: usize,
    incoming: Incoming,
    left: Energy,
    rows: &mut [u64],
    count: usize,
) -> Energy
    requires { (p < orders.count) × (row_words * count + row_words ≤ length rows.old) × (count < 1000000) }
    ensures { let o = order_at orders.entry.words.now p in (result.0 ≡ min left.0 o.quantity)
        × ((m : List ℕ) (rs : List RowRecord) → length rs ≡ count → rows.old ≡ written m rs → rows.new
        ≡ written m (rs ++ (match_row (as_order incoming.order) (record { order = o; quantity = result.0 }) ∷ []))) }
{
    let o = orders.read(p);
    let x = left.min(o.quantity);
    orders::put_row_at(rows, count, match_row(incoming, o, x));
    x
}

// An incoming order, of which some is open, meets the orders of the runs, best price first, then lowest number, until it is
// spent or no order is left. Each match is a row; the places that were met, and what was taken there, are kept.
fn meet_runs(
    orders: OpenOrders<'_>,
    incoming: Incoming,
    runs: &mut Runs,
    met: &mut [usize; 256],
    taken: &mut [u64; 256],
    rows: &mut [u64],
) -> Meeting
    requires { (rising (numbers (orders_in orders.words.now orders.count)) ≡ true) × (0 < incoming.order.quantity.0)
        × (row_words * orders.count ≤ length rows.old)
        × RunsMet orders.words.now runs.old.keys runs.old.places runs.old.heads runs.old.ends orders.count runs.old.count
        (as_order incoming.order) }
    ensures { MetInTurn orders.entry.words.now orders.entry.count (as_order incoming.order) rows.old result.left.0 result.count met.new
        taken.new rows.new }
{
    let mut left = incoming.order.quantity;
    let mut count: usize = 0;
    // paper 01 names this form: the labelled loop over counterparts, the scan for the best price inside, left when the amount is spent
    'meeting: while count < orders.count {
        let mut best: Option<First> = None;
        for j in 0..runs.count {
            best = runs.nearer(best, j);
        }
        let Some(first) = best else {
            break 'meeting;
        };
        let p = runs.take_first(first.run);
        let x = match_at(orders, p, incoming, left, rows, count);
        met[count] = p;
        taken[count] = x.0;
        left = left.minus(x);
        count += 1;
        if left == Energy(0) {
            break 'meeting;
        }
    }
    Meeting { left, count }
}

// The incoming order meets the orders in turn.
fn meet_in_turn(
    orders: OpenOrders<'_>,
    incoming: Incoming,
    met: &mut [usize; 256],
    taken: &mut [u64; 256],
    rows: &mut [u64],
) -> Meeting
    requires { (rising (numbers (orders_in orders.words.now orders.count)) ≡ true) × (0 < incoming.order.quantity.0)
        × (row_words * orders.count ≤ length rows.old) }
    ensures { MetInTurn orders.entry.words.now orders.entry.count (as_order incoming.order) rows.old result.left.0 result.count met.new
        taken.new rows.new }
{
    let mut runs = Runs::none();
    runs.lay(orders, side_met(incoming));
    meet_runs(orders, incoming, &mut runs, met, taken, rows)
}

// The incoming order meets the first n orders, and what was taken off them goes; an emptied order goes with it. Orders
// that do not fit stay as they are, and `None` is returned.
pub fn meet(orders: &mut [u64], n: usize, incoming: Order, rows: &mut [u64]) -> Option<Matched>
    ensures { Meets orders.old rows.old n (as_order incoming) result orders.new rows.new }
{
    let open = fitting(orders, n, rows)?;
    let none_met = Matched {
        left: incoming.quantity,
        count: 0,
        standing: n,
    };
    let Some(named) = Incoming::named(incoming) else {
        return Some(none_met);
    };
    if incoming.quantity == Energy(0) {
        return Some(none_met);
    }
    let mut met = [0; 256];
    let mut taken = [0; 256];
    let meeting = meet_in_turn(open, named, &mut met, &mut taken, rows);
    let fills = Fills {
        places: &met[..meeting.count],
        amounts: &taken[..meeting.count],
    };
    let none = Fills {
        places: &[],
        amounts: &[],
    };
    let standing = crate::rests::leave_rests(orders, n, fills, none);
    Some(Matched {
        left: meeting.left,
        count: meeting.count,
        standing,
    })
}

// Whether an incoming order can meet a waiting one.
#[tactic(auto, unfolding(crate::specs::Rolling::candidate))]
fn can_meet(incoming: Incoming, o: Order) -> bool
    ensures { result ≡ candidate (as_order incoming.order) (as_order o) }
{
    if o.period != incoming.order.period {
        return false;
    }
    if o.direction != u64::from(incoming.direction.opposite()) {
        return false;
    }
    let price = incoming.order.price;
    match incoming.direction {
        Direction::Buy => price.meets(o.price),
        Direction::Sell => o.price.meets(price),
    }
}

// What is left of `left` if the incoming order meets the one at place k too.
fn left_past(orders: OpenOrders<'_>, k: usize, incoming: Incoming, left: Energy) -> Energy
    requires { k < orders.count }
    ensures { let o = order_at orders.entry.words.now k in
        result.0 ≡ left.0 - cond (candidate (as_order incoming.order) o) o.quantity 0 }
{
    let o = orders.read(k);
    if !can_meet(incoming, o) {
        return left;
    }
    left.minus(o.quantity)
}

// What would be left of an incoming order if it met the orders: nothing is matched, what it can meet is taken off.
fn left_behind(orders: OpenOrders<'_>, incoming: Incoming) -> Energy
    ensures { result.0 ≡ (meet (as_order incoming.order) (orders_in orders.entry.words.now orders.entry.count)).left }
{
    let mut left = incoming.order.quantity;
    for k in 0..orders.count {
        left = left_past(orders, k, incoming, left);
    }
    left
}

// The same of the first n orders of any memory: all of it where no order stands there, and all of an order of no direction.
#[tactic(auto, unfolding(crate::specs::Answers::left_over, crate::specs::Memory::place_in))]
pub fn left_over(orders: &[u64], n: usize, incoming: Order) -> Energy
    ensures { result.0 ≡ left_over orders.now n (as_order incoming) }
{
    let Some(open) = OpenOrders::checked(orders, n) else {
        return incoming.quantity;
    };
    let Some(named) = Incoming::named(incoming) else {
        return incoming.quantity;
    };
    left_behind(open, named)
}
