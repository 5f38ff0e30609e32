// Orders and rows in lent memory: six words each, one behind the other, and walked by their number: chunks of six would be read word by
// word too, and of what is written through them a proof knows nothing. The table of orders and their count are words of the lent book, and
// one more order takes the place behind them, so public functions take a slice and a count. Rows are lent by the caller, who is told how
// many there are. `write`, `remove` and `put_row` ask nothing and tell whether they could; who knows that they can passes over the answer.
ghost use Rattle.std.specs.Prelude.{◌≡◌, true, false, MatchOption, List, [], ◌∷◌, ◌++◌, ℕ, ◌+◌, ◌*◌, ◌-◌, ◌<◌, ◌≤◌, length, get_or, set, drop, take};
ghost use Rattle.matching.specs.Orders.{Row as RowRecord, order_with, leaving};
ghost use Rattle.matching.specs.Memory.{most_word, direction_number, order_words, row_words, as_order, as_row, order_at, orders_in, all_there, place_in, written};
ghost use Rattle.matching.specs.Answers.{Written, Removed, RowPut};

use measures::{Energy, Price};

// Which way an order trades. In memory 0 sells and 1 buys; an order in memory may have any number.
#[derive(Clone, Copy, Debug, PartialEq, Eq)]
pub enum Direction {
    Sell = 0,
    Buy = 1,
}

impl Direction {
    // The side that this one meets.
    pub fn opposite(self) -> Direction
        ensures { direction_number result ≡ 1 - direction_number self }
    {
        match self {
            Direction::Sell => Direction::Buy,
            Direction::Buy => Direction::Sell,
        }
    }
}

impl From<Direction> for u64 {
    ghost use Rattle.std.specs.Prelude.{◌≡◌};
    ghost use Rattle.matching.specs.Memory.{direction_number};

    ghost from_gives = { λ d r. r ≡ direction_number d };

    fn from(direction: Direction) -> u64 {
        direction as u64
    }
}

// How a row came about: a bilateral offer taken, a listing taken, a clear, or a match in the rolling phase. In memory these are 1 to 4.
#[derive(Clone, Copy, Debug, PartialEq, Eq)]
pub enum Way {
    Bilateral = 1,
    Listing = 2,
    Clear = 3,
    Rolling = 4,
}

impl From<Way> for u64 {
    ghost use Rattle.std.specs.Prelude.{◌≡◌};
    ghost use Rattle.matching.specs.Memory.{way_number};

    ghost from_gives = { λ way number. number ≡ way_number way };

    fn from(way: Way) -> u64 {
        way as u64
    }
}

// A number that is no direction.
#[derive(Clone, Copy, Debug, PartialEq, Eq)]
pub struct NoDirection;

impl TryFrom<u64> for Direction {
    ghost use Rattle.std.specs.Prelude.{◌≡◌, ◌<◌, MatchResult};
    ghost use Rattle.matching.specs.Memory.{direction_number};

    type Error = NoDirection;

    ghost try_from_gives = { λ n r. MatchResult r (λ d. n ≡ direction_number d) (λ e. 1 < n) };

    fn try_from(number: u64) -> Result<Direction, NoDirection> {
        match number {
            0 => Ok(Direction::Sell),
            1 => Ok(Direction::Buy),
            _ => Err(NoDirection),
        }
    }
}

// An open order. Its direction stays a word of memory, in which any number may stand; so does the way of a row.
#[derive(Clone, Copy, Debug, PartialEq, Eq)]
pub struct Order {
    pub number: u64,
    pub unit: u64,
    pub direction: u64,
    pub period: u64,
    pub price: Price,
    pub quantity: Energy,
}

impl Order {
    // How many stand open at most.
    pub const MOST: u64 = 256;

    // The words of an order, and where they stand behind its number.
    pub const WORDS: usize = 6;

    pub const UNIT: usize = 1;

    pub const DIRECTION: usize = 2;

    pub const PERIOD: usize = 3;

    pub const PRICE: usize = 4;

    pub const QUANTITY: usize = 5;

    // An order of which all is open: a maker, as paper 01 names it.
    pub fn fresh(
        number: u64,
        unit: u64,
        direction: u64,
        period: u64,
        price: Price,
        quantity: Energy,
    ) -> Order
        ensures { as_order result ≡ order_with number unit direction period price.0 quantity.0 }
    {
        Order {
            number,
            unit,
            direction,
            period,
            price,
            quantity,
        }
    }

    // The order with q still open.
    pub fn leaving(self, q: Energy) -> Order
        ensures { as_order result ≡ leaving (as_order self) q.0 }
    {
        Order {
            quantity: q,
            ..self
        }
    }
}

// A trade: way, period, seller, buyer, quantity, price.
#[derive(Clone, Copy, Debug, PartialEq, Eq)]
pub struct Row {
    pub way: u64,
    pub period: u64,
    pub seller: u64,
    pub buyer: u64,
    pub quantity: Energy,
    pub price: Price,
}

impl Row {
    // The words of a row, and where they stand behind its way.
    pub const WORDS: usize = 6;

    pub const PERIOD: usize = 1;

    pub const SELLER: usize = 2;

    pub const BUYER: usize = 3;

    pub const QUANTITY: usize = 4;

    pub const PRICE: usize = 5;
}

// What matching came to: what is left of the incoming order, the count of rows, and how many orders stand. `Cleared` and
// `rolling::Meeting` have what their step knows: as one struct they would hold numbers for none.
#[derive(Clone, Copy, Debug, PartialEq, Eq)]
pub struct Matched {
    pub left: Energy,
    pub count: usize,
    pub standing: usize,
}

// What clearing came to, or where it stands: the count of rows, and how many orders stand. No order comes in, so nothing is left of one.
#[derive(Clone, Copy, Debug, PartialEq, Eq)]
pub struct Cleared {
    pub count: usize,
    pub standing: usize,
}

// The open orders: a table of words, and how many of them stand there. What writes keeps the slice and the count. A struct with a
// `&mut` to the words was tried: its facts hold at each write, but each function that writes through it must say that its count and
// its reference stay, so as many clauses come as go. That their numbers rise stays a clause: it is read off them (`rise`), so a
// second struct of the same fields would be needed to say one clause, and would be no plainer.
#[derive(Clone, Copy)]
pub(crate) struct OpenOrders<'a> {
    pub words: &'a [u64],
    pub count: usize,
    ghost few: { count ≤ 256 },
    ghost there: { order_words * count ≤ length words.now },
    ghost small: { (i : ℕ) → get_or words.now i 0 ≤ most_word },
}

impl<'a> OpenOrders<'a> {
    // The first n orders of the words, which all stand there.
    pub(crate) fn new(words: &'a [u64], n: usize) -> OpenOrders<'a>
        requires { (order_words * n ≤ length words.now) × (n ≤ 256) }
        ensures { (result.words.now ≡ words.now) × (result.count ≡ n) }
    {
        OpenOrders { words, count: n }
    }

    // The first n orders of the words, if they are not too many and all stand there.
    pub(crate) fn checked(words: &'a [u64], n: usize) -> Option<OpenOrders<'a>>
        ensures { MatchOption result (all_there words.now n ≡ false)
            (λ orders. (all_there words.now n ≡ true) × (orders.words.now ≡ words.now) × (orders.count ≡ n)) }
    {
        if n > Order::MOST as usize {
            return None;
        }
        if words.len() < Order::WORDS * n {
            return None;
        }
        Some(OpenOrders::new(words, n))
    }

    // The first n of them.
    pub(crate) fn first(self, n: usize) -> OpenOrders<'a>
        requires { n ≤ self.count }
        ensures { (result.words.now ≡ self.entry.words.now) × (result.count ≡ n) }
    {
        OpenOrders::new(self.words, n)
    }

    // The order at place k.
    pub(crate) fn read(self, k: usize) -> Order
        requires { k < self.count }
        ensures { as_order result ≡ order_at self.entry.words.now k }
    {
        read(self.words, k)
    }
}

// The order at place k; word by word, since each word has a name for its place.
pub(crate) fn read(orders: &[u64], k: usize) -> Order
    requires { (order_words * k + order_words ≤ length orders.now) × (k < 256) }
    ensures { as_order result ≡ order_at orders.now k }
{
    let at = Order::WORDS * k;
    Order {
        number: orders[at],
        unit: orders[at + Order::UNIT],
        direction: orders[at + Order::DIRECTION],
        period: orders[at + Order::PERIOD],
        price: Price(orders[at + Order::PRICE]),
        quantity: Energy(orders[at + Order::QUANTITY]),
    }
}

// The order at place k keeps q open.
pub(crate) fn leave(orders: &mut [u64], n: usize, k: usize, q: Energy)
    requires { (order_words * n ≤ length orders.old) × (k < n) × (n ≤ 256) }
    ensures { (orders_in orders.new n ≡ set (orders_in orders.old n) k (leaving (order_at orders.old k) q.0))
        × (drop (order_words * n) orders.new ≡ drop (order_words * n) orders.old) }
{
    orders[Order::WORDS * k + Order::QUANTITY] = q.0;
}

// An order takes place k, which is there.
pub(crate) fn write_at(orders: &mut [u64], n: usize, k: usize, o: Order)
    requires { (order_words * n ≤ length orders.old) × (k < n) × (n ≤ 256) }
    ensures { (orders_in orders.new n ≡ set (orders_in orders.old n) k (as_order o))
        × (drop (order_words * n) orders.new ≡ drop (order_words * n) orders.old) }
{
    let at = Order::WORDS * k;
    orders[at] = o.number;
    orders[at + Order::UNIT] = o.unit;
    orders[at + Order::DIRECTION] = o.direction;
    orders[at + Order::PERIOD] = o.period;
    orders[at + Order::PRICE] = o.price.0;
    orders[at + Order::QUANTITY] = o.quantity.0;
}

// The order at place k, which is there, goes, and those behind it move up by one place.
fn remove_at(orders: &mut [u64], n: usize, k: usize)
    requires { (order_words * n ≤ length orders.old) × (k < n) × (n ≤ 256) }
    ensures { (orders_in orders.new (n - 1) ≡ take k (orders_in orders.old n) ++ drop (k + 1) (orders_in orders.old n))
        × (drop (order_words * n) orders.new ≡ drop (order_words * n) orders.old) }
{
    let next = Order::WORDS * k + Order::WORDS;
    orders.copy_within(next..Order::WORDS * n, Order::WORDS * k);
}

// Whether place k is one of the first n orders, which all stand there.
#[tactic(auto, unfolding(crate::specs::Memory::place_in))]
fn is_place(orders: &[u64], n: usize, k: usize) -> bool
    ensures { result ≡ place_in orders.now n k }
{
    let Some(open) = OpenOrders::checked(orders, n) else {
        return false;
    };
    k < open.count
}

// An order takes place k of the first n; whether that place is there.
#[tactic(auto, unfolding(crate::specs::Memory::place_in))]
pub fn write(orders: &mut [u64], n: usize, k: usize, o: Order) -> bool
    ensures { Written orders.old n k (as_order o) result orders.new }
{
    if !is_place(orders, n, k) {
        return false;
    }
    write_at(orders, n, k, o);
    true
}

// The order at place k of the first n goes, and those behind it move up by one place; whether that place is there.
#[tactic(auto, unfolding(crate::specs::Memory::place_in))]
pub fn remove(orders: &mut [u64], n: usize, k: usize) -> bool
    ensures { Removed orders.old n k result orders.new }
{
    if !is_place(orders, n, k) {
        return false;
    }
    remove_at(orders, n, k);
    true
}

// Row number n, behind the n rows that stand there; there is room for it.
pub(crate) fn put_row_at(rows: &mut [u64], n: usize, r: Row)
    requires { row_words * n + row_words ≤ length rows.old }
    ensures { (m : List ℕ) (rs : List RowRecord) → length rs ≡ n → rows.old ≡ written m rs → rows.new
        ≡ written m (rs ++ (as_row r ∷ [])) }
{
    let at = Row::WORDS * n;
    rows[at] = r.way;
    rows[at + Row::PERIOD] = r.period;
    rows[at + Row::SELLER] = r.seller;
    rows[at + Row::BUYER] = r.buyer;
    rows[at + Row::QUANTITY] = r.quantity.0;
    rows[at + Row::PRICE] = r.price.0;
}

// Row number n, behind the n rows that stand there; whether there is room for it.
#[tactic(auto, unfolding(crate::specs::Memory::room_for))]
pub fn put_row(rows: &mut [u64], n: usize, r: Row) -> bool
    ensures { RowPut rows.old n (as_row r) result rows.new }
{
    if n >= rows.len() / Row::WORDS {
        return false;
    }
    put_row_at(rows, n, r);
    true
}
