// Rows entered in the figures of seller and buyer: paper 01, "Limits".
ghost use Rattle.std.specs.Prelude.{◌≡◌, ◌+◌, ◌-◌, ◌*◌, ◌<◌, ◌≤◌, min, length, if◌then◌else◌};
ghost use Rattle.measures.specs.Ranges.{most_energy, most_number};
ghost use Rattle.matching.specs.Memory.{direction_number, row_words, as_row, row_at};
ghost use Rattle.book.specs.Book.{unit_of};
ghost use Rattle.book.specs.Trades.{raises, mark_with, mark_after};
ghost use Rattle.book.specs.Refusals.{marked_against};
ghost use Rattle.book.specs.Layout.{DAYS, UNITS, figure_place, VOLUME, word, figures_at, decode};
ghost use Rattle.book.specs.Inner.Readable.{Readable};
ghost use Rattle.book.specs.Inner.RowsIn.{as_figures, figures_from, Small, SmallAt, FiguresPut, Traded};
ghost use Rattle.book.specs.Inner.RowsIn.{RowTraded, RowFits, RowsFit, small_figures, RowsTraded};

use crate::lent::ReadableBook;
use crate::places::{
    BLOCK, DAY_WORDS, FIGURES, HOURS, LOWERED, MARK, PERIOD, PRICE, QUANTITY, RAISED, VOLUME,
};
use crate::ranges::raising_direction;
use matching::orders::{Direction, Row, Way};
use measures::{Energy, Price};

// Whether a trade in this direction raises the unit's net.
pub(crate) fn raises_net(book: ReadableBook<'_>, unit: u64, direction: Direction) -> bool
    requires { (1 ≤ unit) × (unit ≤ word book.words.now UNITS) }
    ensures { result ≡ raises (unit_of (decode book.entry.words.now) unit).kind (direction_number direction) }
{
    direction == raising_direction(book, unit)
}

// Today's trades of a unit in a period: none, sold, bought or both; a word of memory, in which any number may stand.
#[derive(Clone, Copy, PartialEq, Eq)]
pub(crate) struct Mark(pub u64);

impl Mark {
    const NONE: Mark = Mark(0);

    pub(crate) const BOTH: Mark = Mark(3);

    // Trades in one direction: 1 sold, 2 bought.
    fn of(direction: Direction) -> Mark
        ensures { result.0 ≡ direction_number direction + 1 }
    {
        Mark(u64::from(direction) + 1)
    }

    // With one direction more.
    fn with(self, direction: Direction) -> Mark
        ensures { result.0 ≡ mark_with (direction_number direction) self.0 }
    {
        if self == Mark::NONE {
            return Mark::of(direction);
        }
        if self == Mark::of(direction.opposite()) {
            return Mark::BOTH;
        }
        self
    }

    // After a trade.
    fn after(self, way: u64, direction: Direction) -> Mark
        ensures { result.0 ≡ mark_after way (direction_number direction) self.0 }
    {
        if way < Way::Clear as u64 {
            return self;
        }
        self.with(direction)
    }

    // Whether it has the other direction.
    pub(crate) fn is_against(self, direction: Direction) -> bool
        ensures { result ≡ marked_against (direction_number direction) self.0 }
    {
        if self == Mark::BOTH {
            return true;
        }
        self == Mark::of(direction.opposite())
    }
}

// The figures of a unit in a period.
#[derive(Clone, Copy)]
pub(crate) struct Figures {
    pub held: Energy,
    pub raised: Energy,
    pub lowered: Energy,
    pub mark: Mark,
    pub volume: Energy,
}

impl Figures {
    // Held and raised, less lowered.
    pub(crate) fn net(self) -> Energy
        ensures { result.0 ≡ min (self.held.0 + self.raised.0) most_number - self.lowered.0 }
    {
        let whole = self.held.plus(self.raised);
        whole.minus(self.lowered)
    }

    // With more raised. It and `lowered_by` are mirror images: one function of both would take a flag to choose between them.
    fn raised_by(self, quantity: Energy) -> Figures
        ensures { (result.raised.0 ≡ min (self.raised.0 + quantity.0) most_number) × (result.lowered.0 ≡ self.lowered.0) }
    {
        Figures {
            raised: self.raised.plus(quantity),
            ..self
        }
    }

    // With more lowered.
    fn lowered_by(self, quantity: Energy) -> Figures
        ensures { (result.raised.0 ≡ self.raised.0) × (result.lowered.0 ≡ min (self.lowered.0 + quantity.0) most_number) }
    {
        Figures {
            lowered: self.lowered.plus(quantity),
            ..self
        }
    }
}

// The figures that begin at a place.
pub(crate) fn figures_from(book: &[u64], at: usize) -> Figures
    requires { at + VOLUME < length book.now }
    ensures { as_figures result ≡ figures_from book.now at }
{
    Figures {
        held: Energy(book[at]),
        raised: Energy(book[at + RAISED]),
        lowered: Energy(book[at + LOWERED]),
        mark: Mark(book[at + MARK]),
        volume: Energy(book[at + VOLUME]),
    }
}

// The figures of the unit at place k in period p.
pub(crate) fn figures_at(book: &[u64], k: usize, p: usize) -> Figures
    requires { (figure_place k p + VOLUME < length book.now) × (k < 64) × (p < 744) }
    ensures { as_figures result ≡ figures_at book.now k p }
{
    let at = FIGURES + DAY_WORDS * (p / HOURS) + BLOCK * k + p % HOURS;
    figures_from(book, at)
}

// New figures of the unit at place k in period p; what it holds stays.
fn put_figures(book: &mut [u64], k: usize, p: usize, figures: Figures)
    requires { (figure_place k p + VOLUME < length book.old) × (k < 64) × (p < 744) }
    ensures { FiguresPut book.old book.new k p figures.raised.0 figures.lowered.0 figures.volume.0
        figures.mark.0 }
{
    let at = FIGURES + DAY_WORDS * (p / HOURS) + BLOCK * k + p % HOURS;
    book[at + RAISED] = figures.raised.0;
    book[at + LOWERED] = figures.lowered.0;
    book[at + MARK] = figures.mark.0;
    book[at + VOLUME] = figures.volume.0;
}

// One party of a row: the unit sold or bought.
fn book_trade(book: &mut [u64], row: Row, direction: Direction, unit: u64)
    requires { (Readable book.old) × (row.period < 24 * word book.old DAYS) × (1 ≤ unit) × (unit ≤ word book.old UNITS)
        × (row.quantity.0 ≤ most_energy) × (SmallAt book.old (unit - 1) row.period 2000000000000000000) }
    ensures { Traded book.old book.new row.way (direction_number direction) row.period row.quantity.0 unit }
{
    let k = unit as usize - 1;
    let p = row.period as usize;
    let before = figures_at(book, k, p);
    let figures = if raises_net(ReadableBook { words: book }, unit, direction) {
        before.raised_by(row.quantity)
    } else {
        before.lowered_by(row.quantity)
    };
    let mark = before.mark.after(row.way, direction);
    let volume = before.volume.plus(row.quantity);
    let after = Figures {
        mark,
        volume,
        ..figures
    };
    put_figures(book, k, p, after);
}

// The row at place i of the lent rows.
fn row_at(rows: &[u64], i: usize) -> Row
    requires { (row_words * i + row_words ≤ length rows.now) × (i < 744) }
    ensures { as_row result ≡ row_at rows.now i }
{
    let at = Row::WORDS * i;
    Row {
        way: rows[at],
        period: rows[at + Row::PERIOD],
        seller: rows[at + Row::SELLER],
        buyer: rows[at + Row::BUYER],
        quantity: Energy(rows[at + Row::QUANTITY]),
        price: Price(rows[at + Row::PRICE]),
    }
}

// Both parties of the row at place i.
fn book_row(book: &mut [u64], rows: &[u64], i: usize)
    requires { (Readable book.old) × (row_words * i + row_words ≤ length rows.now) × (i < 744) × (RowFits book.old (row_at rows.now i))
        × (Small book.old 1900000000000000000) }
    ensures { RowTraded book.old book.new (row_at rows.now i) }
{
    let row = row_at(rows, i);
    book_trade(book, row, Direction::Sell, row.seller);
    book_trade(book, row, Direction::Buy, row.buyer);
}

// The first count rows.
pub(crate) fn book_rows(book: &mut [u64], rows: &[u64], count: usize)
    requires { (Readable book.old) × (row_words * count ≤ length rows.now) × (count ≤ 744) × (RowsFit book.old rows.now count)
        × (Small book.old small_figures) }
    ensures { RowsTraded book.old book.new rows.now count }
{
    for i in 0..count {
        book_row(book, rows, i);
    }
}
