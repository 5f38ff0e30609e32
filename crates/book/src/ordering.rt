// Order (paper 01): "a unit, a direction (0 sell, 1 buy), a period, a price, a quantity."
ghost use Rattle.std.specs.Prelude.{◌≡◌, ◌+◌, ◌-◌, ◌*◌, ◌<◌, ◌≤◌, true, [], ◌∷◌, ◌++◌, length, ◌&&◌, nat_eq, nat_le, nat_lt, cond, IfOk};
ghost use Rattle.measures.specs.Lists.{sum};
ghost use Rattle.matching.specs.Orders.{order_with, leaving};
ghost use Rattle.matching.specs.Memory.{direction_number, as_order, orders_in};
ghost use Rattle.book.specs.Book.{numbered};
ghost use Rattle.book.specs.Layout.{DAYS, PHASE, GIVEN, UNITS, ORDERS, amounts_start, word, orders_part, decode, Aside};
ghost use Rattle.measures.specs.Refused.{refusal_of};
ghost use Rattle.book.specs.Refusals.{first_refusal, orders_full};
ghost use Rattle.book.specs.Contract.{sound_in};
ghost use Rattle.book.specs.Order.{order_checks, new_order, ordered_in_call, waiting};
ghost use Rattle.book.specs.Inner.Ordering.{day_checks, order_fit_checks, NameChecked, Named, of_unit_at, against_at, OrdersPut, Rolled, RolledOn};

use crate::Done;
use crate::fits::misfit;
use crate::lent::{ReadableBook, SoundBook};
use crate::offering::Offer;
use crate::pass::Amounts;
use crate::phase::Phase;
use crate::places::{
    AMOUNTS, DAYS, DIRECTION, GIVEN, ORDER_TABLE, ORDER_WORDS, ORDERS, PERIOD, PHASE,
    ROOM_FOR_ROWS, UNIT,
};
use crate::ranges::{price_in, unit_known};
use crate::trades::{book_rows, figures_at, raises_net};
use limits::Term;
use matching::orders::{Direction, Matched, Order};
use measures::{Energy, Price, Refusal};

// What an order asks for; its direction is any number that a caller names. It is no `Order` yet: it has no number before its
// checks pass.
#[derive(Clone, Copy)]
pub(crate) struct Wanted {
    pub unit: u64,
    pub direction: u64,
    pub period: u64,
    pub price: Price,
    pub quantity: Energy,
}

impl Wanted {
    // The order under a number.
    fn numbered(self, number: u64) -> Order
        ensures { as_order result ≡ order_with number self.unit self.direction self.period self.price.0 self.quantity.0 }
    {
        Order::fresh(
            number,
            self.unit,
            self.direction,
            self.period,
            self.price,
            self.quantity,
        )
    }
}

// The checks of names, rows, price, energy, period and direction; where none applies, the direction.
#[tactic(auto, using(crate::proofs::Laws::Memory::RangeFacts::held), unfolding(crate::specs::Refusals::first_refusal, crate::specs::Inner::Ordering::name_checks))]
fn order_names(book: ReadableBook<'_>, wanted: Wanted, lent: usize) -> Result<Direction, Refusal>
    ensures direction { IfOk result (λ direction. direction_number direction ≡ wanted.direction) }
    ensures checked { NameChecked book.entry.words.now wanted.unit wanted.direction wanted.period wanted.price.0 wanted.quantity.0
        lent (refusal_of result) }
{
    if !unit_known(book, wanted.unit) {
        return Err(Refusal::UnknownName);
    }
    if lent < ROOM_FOR_ROWS {
        return Err(Refusal::FewRows);
    }
    if !price_in(book, wanted.price) {
        return Err(Refusal::BadPrice);
    }
    if !wanted.quantity.can_be_declared() {
        return Err(Refusal::BadEnergy);
    }
    if !Term(book.words[DAYS]).has(wanted.period) {
        return Err(Refusal::BadPeriod);
    }
    // `or` was tried in place of `let .. else`: a search does not find its proof, which would be longer
    let Ok(direction) = Direction::try_from(wanted.direction) else {
        return Err(Refusal::WrongParty);
    };
    Ok(direction)
}

// Whether the order at place k is of the same unit and period.
fn of_unit_at(book: ReadableBook<'_>, wanted: Wanted, k: usize) -> bool
    requires { k < word book.words.now ORDERS }
    ensures { cond result 1 0 ≡ of_unit_at book.entry.words.now wanted.unit wanted.period k }
{
    let at = ORDER_TABLE + ORDER_WORDS * k;
    book.words[at + UNIT] == wanted.unit && book.words[at + PERIOD] == wanted.period
}

// Whether it goes the other way too.
fn against_at(book: ReadableBook<'_>, wanted: Wanted, k: usize) -> bool
    requires { k < word book.words.now ORDERS }
    ensures { cond result 1 0 ≡ against_at book.entry.words.now wanted.unit wanted.direction wanted.period k }
{
    let at = ORDER_TABLE + ORDER_WORDS * k;
    book.words[at + DIRECTION] != wanted.direction && of_unit_at(book, wanted, k)
}

// How many open orders a unit has in a period, and whether one of these goes the other way.
#[derive(Clone, Copy)]
struct Seen {
    stand: u64,
    against: bool,
}

fn unit_orders(book: ReadableBook<'_>, wanted: Wanted) -> Seen
    ensures { (result.stand ≡ sum (word book.entry.words.now ORDERS) (of_unit_at book.entry.words.now wanted.unit wanted.period))
        × (result.against ≡ nat_lt 0 (sum (word book.entry.words.now ORDERS)
        (against_at book.entry.words.now wanted.unit wanted.direction wanted.period))) }
{
    let n = book.words[ORDERS] as usize;
    let mut stand: u64 = 0;
    let mut against = false;
    for k in 0..n {
        stand += u64::from(of_unit_at(book, wanted, k));
        against |= against_at(book, wanted, k);
    }
    Seen { stand, against }
}

// Whether two of a unit stand open already, in the call phase.
fn two_open(book: ReadableBook<'_>, stand: u64) -> bool
    ensures { result ≡ (nat_eq (word book.entry.words.now PHASE) 0 && nat_le 2 stand) }
{
    book.words[PHASE] == Phase::Call as u64 && 1 < stand
}

// Whether 256 orders stand open and this one, or some of it, would wait. Its number is not given yet; matching does not ask
// for it.
fn lacks_place(book: ReadableBook<'_>, wanted: Wanted) -> bool
    ensures { result ≡ (orders_full (decode book.entry.words.now) (new_order (decode book.entry.words.now) wanted.unit wanted.direction
        wanted.period wanted.price.0 wanted.quantity.0)).applies }
{
    if book.words[ORDERS] < Order::MOST {
        return false;
    }
    if book.words[PHASE] == Phase::Call as u64 {
        return true;
    }
    let o = wanted.numbered(0);
    let n = book.words[ORDERS] as usize;
    let left = matching::rolling::left_over(&book.words[ORDER_TABLE..AMOUNTS], n, o);
    left != Energy(0)
}

// The checks of the day and the tables. The direction that was read stands beside what was asked for here and in `order_fit`
// alone.
fn order_days(book: ReadableBook<'_>, wanted: Wanted, direction: Direction) -> Result<(), Refusal>
    requires { (1 ≤ wanted.unit) × (wanted.unit ≤ word book.words.now UNITS) × (direction_number direction ≡ wanted.direction)
        × (wanted.period < 24 * word book.words.now DAYS) }
    ensures { refusal_of result ≡ first_refusal (day_checks (decode book.entry.words.now) wanted.unit wanted.direction wanted.period
        wanted.price.0 wanted.quantity.0) }
{
    let seen = unit_orders(book, wanted);
    if seen.against {
        return Err(Refusal::OtherDirection);
    }
    let p = wanted.period as usize;
    let k = wanted.unit as usize - 1;
    let mark = figures_at(book.words, k, p).mark;
    if mark.is_against(direction) {
        return Err(Refusal::OtherDirection);
    }
    if two_open(book, seen.stand) {
        return Err(Refusal::TwoOpen);
    }
    if lacks_place(book, wanted) {
        return Err(Refusal::TablesFull);
    }
    if Offer::NUMBERS <= book.words[GIVEN] {
        return Err(Refusal::NumbersUsed);
    }
    Ok(())
}

// The checks of the limits: the quantity stands alone in its period, raising or lowering.
#[tactic(auto, using(crate::proofs::Laws::Answer::MadeLaws::sound_readable))]
fn order_fit(book: SoundBook<'_>, wanted: Wanted, direction: Direction) -> Result<(), Refusal>
    requires { (direction_number direction ≡ wanted.direction)
        × (Named book.words.now wanted.unit wanted.direction wanted.period wanted.quantity.0) }
    ensures { refusal_of result ≡ first_refusal (order_fit_checks (decode book.entry.words.now) wanted.unit wanted.direction wanted.period
        wanted.quantity.0) }
{
    let mut declared = Amounts {
        raising: [0; 744],
        lowering: [0; 744],
    };
    if raises_net(ReadableBook { words: book.words }, wanted.unit, direction) {
        declared.raising[wanted.period as usize] = wanted.quantity.0;
        return misfit(book, wanted.unit, &mut declared);
    }
    declared.lowering[wanted.period as usize] = wanted.quantity.0;
    misfit(book, wanted.unit, &mut declared)
}

// The checks of an order behind that of soundness.
pub(crate) fn order_checks(book: SoundBook<'_>, wanted: Wanted, lent: usize) -> Result<(), Refusal>
    ensures { refusal_of result ≡ first_refusal (order_checks (decode book.entry.words.now) wanted.unit wanted.direction wanted.period
        wanted.price.0 wanted.quantity.0 lent) }
{
    let readable = ReadableBook { words: book.words };
    let direction = order_names(readable, wanted, lent)?;
    order_days(readable, wanted, direction)?;
    order_fit(book, wanted, direction)
}

// An order waits behind those that stand open.
fn append(book: &mut [u64], o: Order)
    requires { (amounts_start ≤ length book.old) × (word book.old ORDERS < 256) }
    ensures { OrdersPut book.old book.new (orders_in (orders_part book.old) (word book.old ORDERS)
        ++ (as_order o ∷ [])) }
{
    let n = book[ORDERS];
    // a place is free, so it is taken
    matching::orders::write(
        &mut book[ORDER_TABLE..AMOUNTS],
        n as usize + 1,
        n as usize,
        o,
    );
    book[ORDERS] = n + 1;
}

// The next number is given: the order has it already.
fn give_number(book: &mut [u64], number: u64)
    requires { (amounts_start ≤ length book.old) × (number ≡ word book.old GIVEN + 1) }
    ensures { (decode book.new ≡ numbered (decode book.old))
        × (Aside book.old book.new) }
{
    book[GIVEN] = number;
}

// "Call phase: it only waits."
pub(crate) fn order_in_call(book: &mut [u64], wanted: Wanted) -> Done
    requires { (sound_in book.old ≡ true) × (word book.old ORDERS < 256) × (word book.old GIVEN < 65535) }
    ensures done { (result.number ≡ word book.old GIVEN + 1) × (result.count ≡ 0) }
    ensures book { (decode book.new ≡ (ordered_in_call (decode book.old)
        (new_order (decode book.old) wanted.unit wanted.direction wanted.period wanted.price.0 wanted.quantity.0)).book)
        × (Aside book.old book.new) }
{
    let number = book[GIVEN] + 1;
    let o = wanted.numbered(number);
    append(book, o);
    give_number(book, number);
    Done { number, count: 0 }
}

// An order meets those that stand open.
fn meet_orders(book: &mut [u64], o: Order, rows: &mut [u64]) -> Matched
    requires { (sound_in book.old ≡ true) × (4464 ≤ length rows.old) }
    ensures { Rolled book.old book.new rows.old rows.new (as_order o) result.left.0 result.count }
{
    let n = book[ORDERS];
    let met = matching::rolling::meet(&mut book[ORDER_TABLE..AMOUNTS], n as usize, o, rows);
    let Some(met) = met else { unreachable!() };
    book[ORDERS] = met.standing as u64;
    met
}

// "the rest waits"
fn rest_waits(book: &mut [u64], o: Order, left: Energy)
    requires { (amounts_start ≤ length book.old) × (0 < left.0 → word book.old ORDERS < 256) }
    ensures { OrdersPut book.old book.new (orders_in (orders_part book.old) (word book.old ORDERS)
        ++ waiting (leaving (as_order o) left.0)) }
{
    if left == Energy(0) {
        return;
    }
    let rest = o.leaving(left);
    append(book, rest);
}

// "Rolling phase: it meets opposite orders of its period"
pub(crate) fn order_in_rolling(book: &mut [u64], wanted: Wanted, rows: &mut [u64]) -> Done
    requires { (sound_in book.old ≡ true) × (0 ≡ first_refusal (order_checks (decode book.old) wanted.unit wanted.direction wanted.period
        wanted.price.0 wanted.quantity.0 (length rows.old))) }
    ensures number { result.number ≡ word book.old GIVEN + 1 }
    ensures rolled { RolledOn book.old rows.old wanted.unit wanted.direction wanted.period wanted.price.0
        wanted.quantity.0 result.count book.new rows.new }
{
    let number = book[GIVEN] + 1;
    let o = wanted.numbered(number);
    let met = meet_orders(book, o, rows);
    rest_waits(book, o, met.left);
    book_rows(book, rows, met.count);
    give_number(book, number);
    Done {
        number,
        count: met.count,
    }
}
