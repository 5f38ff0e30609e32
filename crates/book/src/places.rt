// Where memory holds a book. Each place is written here and in specs/Layout.antt, and nowhere else, but for the words of an order, which
// matching has. Records in words of lent memory are walked by their number: they are no items of a slice. A sum of these places is
// written where it is used: a function for each would have a contract that says the same sum.
use matching::orders::Order;

// The book's own words.
pub const DAYS: usize = 0;

pub const FLOOR: usize = 1;

pub const CEILING: usize = 2;

pub const PHASE: usize = 3;

pub const GIVEN: usize = 4;

pub const UNITS: usize = 5;

pub const OFFERS: usize = 6;

pub const ORDERS: usize = 7;

pub const LAYOUT: usize = 8;

// The number of this layout.
pub const LAYOUT_NUMBER: u64 = 3_100_002;

// Units, of which each begins with its kind.
pub const UNIT_TABLE: usize = 64;

pub const UNIT_WORDS: usize = 8;

pub const CAPACITY: usize = 1;

pub const ASSET: usize = 2;

// Offers and orders, of which each begins with its number; the unit and the price stand at one place in both.
pub const OFFER_TABLE: usize = 1_344;

pub const OFFER_WORDS: usize = 8;

pub const UNIT: usize = Order::UNIT;

pub const PARTNER: usize = 2;

pub const TAKEN: usize = 3;

pub const PRICE: usize = Order::PRICE;

pub const ORDER_TABLE: usize = 1_536;

pub const ORDER_WORDS: usize = Order::WORDS;

pub const DIRECTION: usize = Order::DIRECTION;

pub const PERIOD: usize = Order::PERIOD;

pub const QUANTITY: usize = Order::QUANTITY;

// Amounts of offers, by period.
pub const AMOUNTS: usize = 3_072;

pub const AMOUNT_WORDS: usize = 744;

// Figures: of each day a block for each unit, and in it held, raised, lowered, mark and volume, by hour.
pub const FIGURES: usize = 9_024;

pub const DAY_WORDS: usize = 7_704;

pub const BLOCK: usize = 120;

pub const RAISED: usize = 24;

pub const LOWERED: usize = 48;

pub const MARK: usize = 72;

pub const VOLUME: usize = 96;

// The hours of a day.
pub const HOURS: usize = 24;

// No place: how many words the rows of a call may fill, 744 of them.
pub const ROOM_FOR_ROWS: usize = 4_464;

// How many words a book of one day needs.
pub const ONE_DAY: usize = 16_728;
