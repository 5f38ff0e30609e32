// The public calls: each checks for itself, and answers for every memory and argument.
ghost use Rattle.std.specs.Prelude.{[], length};
ghost use Rattle.book.specs.Contract.{Made, Curved};
ghost use Rattle.book.specs.Calls.{
  call_enrol,
  call_offer,
  call_take,
  call_withdraw,
  call_cancel,
  call_close,
  call_clear,
  call_order,
};

use crate::cancelling::{cancel_checks, cancel_effect};
use crate::closing::close_day;
use crate::curve::{curve_checks, write_points};
use crate::enrolling::{enrol_checks, enrol_effect};
use crate::lent::ReadableBook;
use crate::offering::{Offer, offer_checks, offer_effect};
use crate::ordering::{Wanted, order_checks, order_in_call, order_in_rolling};
use crate::periods::{clear_checks, clear_effect};
use crate::phase::Phase;
use crate::places::PHASE;
use crate::sound::check_sound;
use crate::taking::{Claim, take_checks, take_effect};
use crate::withdrawing::{withdraw_checks, withdraw_effect};
use crate::{Answer, Done};
use limits::Unit;
use measures::{Energy, Price};

// The 48 points of a unit on a day.
pub fn curve(book: &[u64], unit: u64, day: u64, points: &mut [u64]) -> Answer
    ensures { Curved book.now points.old unit day result points.new }
{
    let sound = check_sound(book)?;
    let readable = ReadableBook { words: sound.words };
    curve_checks(readable, unit, day, points.len())?;
    write_points(readable, unit as usize - 1, day as usize, points);
    Ok(Done::NOTHING)
}

// Adds a unit.
pub fn enrol(book: &mut [u64], kind: u64, capacity: u64, asset: u64) -> Answer
    ensures { Made book.old [] (call_enrol kind capacity asset) result book.new [] }
{
    let sound = check_sound(book)?;
    let unit = Unit::fresh(kind, capacity, Energy(asset));
    enrol_checks(sound, unit)?;
    let number = enrol_effect(book, unit);
    Ok(Done { number, count: 0 })
}

// Offers an amount for each period, to a partner or as a listing.
pub fn offer(book: &mut [u64], unit: u64, partner: u64, price: u64, amounts: &[u64]) -> Answer
    ensures { Made book.old [] (call_offer unit partner price amounts.now) result book.new [] }
{
    let sound = check_sound(book)?;
    let terms = Offer::fresh(unit, partner, Price(price));
    offer_checks(sound, terms, amounts)?;
    let number = offer_effect(book, terms, amounts);
    Ok(Done { number, count: 0 })
}

// Takes a quantity of an open offer: a row for each period that gives some.
pub fn take(book: &mut [u64], unit: u64, number: u64, quantity: u64, rows: &mut [u64]) -> Answer
    ensures { Made book.old rows.old (call_take unit number quantity (length rows.old)) result book.new
        rows.new }
{
    let sound = check_sound(book)?;
    let claim = Claim {
        unit,
        number,
        quantity: Energy(quantity),
    };
    let mut parts = [0u64; 744];
    let offer = take_checks(sound, claim, rows.len(), &mut parts)?;
    let count = take_effect(book, offer, claim, &parts, rows);
    Ok(Done { number: 0, count })
}

// Removes an own offer of which nothing is taken.
pub fn withdraw(book: &mut [u64], unit: u64, number: u64) -> Answer
    ensures { Made book.old [] (call_withdraw unit number) result book.new [] }
{
    let sound = check_sound(book)?;
    let j = withdraw_checks(sound, unit, number)?;
    withdraw_effect(book, j);
    Ok(Done::NOTHING)
}

// Removes what is left of an own order.
pub fn cancel(book: &mut [u64], unit: u64, number: u64) -> Answer
    ensures { Made book.old [] (call_cancel unit number) result book.new [] }
{
    let sound = check_sound(book)?;
    let k = cancel_checks(sound, unit, number)?;
    cancel_effect(book, k);
    Ok(Done::NOTHING)
}

// Closes the day.
pub fn close(book: &mut [u64]) -> Answer
    ensures { Made book.old [] call_close result book.new [] }
{
    check_sound(book)?;
    close_day(book);
    Ok(Done::NOTHING)
}

// Clears each period of the call phase, and begins the rolling phase.
pub fn clear(book: &mut [u64], rows: &mut [u64]) -> Answer
    ensures { Made book.old rows.old (call_clear (length rows.old)) result book.new rows.new }
{
    let sound = check_sound(book)?;
    clear_checks(ReadableBook { words: sound.words }, rows.len())?;
    let count = clear_effect(book, rows);
    Ok(Done { number: 0, count })
}

// Orders a quantity of a period: in the call phase it waits, in the rolling phase it meets opposite orders.
pub fn order(
    book: &mut [u64],
    unit: u64,
    direction: u64,
    period: u64,
    price: u64,
    quantity: u64,
    rows: &mut [u64],
) -> Answer
    ensures { Made book.old rows.old (call_order unit direction period price quantity (length rows.old)) result
        book.new rows.new }
{
    let sound = check_sound(book)?;
    let wanted = Wanted {
        unit,
        direction,
        period,
        price: Price(price),
        quantity: Energy(quantity),
    };
    order_checks(sound, wanted, rows.len())?;
    if book[PHASE] == Phase::Call as u64 {
        return Ok(order_in_call(book, wanted));
    }
    Ok(order_in_rolling(book, wanted, rows))
}
