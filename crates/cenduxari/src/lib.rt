// The engine for Rust and C: paper 01's calls on numbers and slices. Each call on a book returns the refusal, or 0, and
// writes its number and its count of rows to `out`.
#![tactic(auto)]

ghost use Rattle.std.specs.Prelude.{◌≡◌, [], ◌∷◌, length};
ghost use Rattle.measures.specs.Sharing.{sharing, Is};
ghost use Rattle.limits.specs.Limits.{limits_at};
ghost use Rattle.book.specs.Book.{rules_of};
ghost use Rattle.book.specs.Opening.{words_for, WithinBytes};
ghost use Rattle.book.specs.Calls.{call_enrol, call_offer, call_take, call_withdraw, call_order, call_cancel, call_clear, call_close};
ghost use Rattle.book.specs.Contract.{told_by};
ghost use Rattle.cenduxari.specs.Exports.{Called, BookOpened, CurveDrawn};

use book::Answer;
use measures::refusal_number;

// Tells an answer in numbers: the refusal, or 0, is returned, and the number and the count of rows are written, zeros where it is
// refused.
fn tell(answer: Answer, out: &mut [u64; 2]) -> u64
    ensures refusal { result ≡ (told_by answer).refusal }
    ensures numbers { out.new ≡ (told_by answer).number ∷ (told_by answer).count ∷ [] }
{
    *out = match answer {
        Ok(done) => [done.number, done.count as u64],
        Err(_) => [0, 0],
    };
    refusal_number(&answer)
}

// Shares an amount over the remaining amounts. This and the limits are exported by the lower crates too, which are called directly.
#[unsafe(no_mangle)]
pub extern "C" fn cenduxari_share(amount: u64, amounts: &[u64], parts: &mut [u64]) -> u64
    ensures { Is (sharing amount amounts.now parts.old) result parts.new }
{
    measures::cenduxari_share(amount, amounts, parts)
}

// The hour, term and volume limit of a unit.
#[unsafe(no_mangle)]
pub extern "C" fn cenduxari_limits(
    days: u64,
    kind: u64,
    capacity: u64,
    asset: u64,
    period: u64,
    out: &mut [u64; 3],
) -> u64
    ensures { (result ≡ (limits_at days kind capacity asset period).number) × (out.new ≡ (limits_at days kind capacity asset period).values) }
{
    limits::cenduxari_limits(days, kind, capacity, asset, period, out)
}

// How many words a book of these days needs; 0 where there is no such book.
#[unsafe(no_mangle)]
pub extern "C" fn cenduxari_book_words(days: u64) -> u64
    ensures { (result ≡ words_for days) × (WithinBytes result days) }
{
    book::opening::book_words(days)
}

// Opens a book.
#[unsafe(no_mangle)]
pub extern "C" fn cenduxari_open(
    book: &mut [u64],
    days: u64,
    floor: u64,
    ceiling: u64,
    out: &mut [u64; 2],
) -> u64
    ensures { BookOpened book.old (rules_of days floor ceiling) result out.new book.new }
{
    tell(book::opening::open(book, days, floor, ceiling), out)
}

// Adds a unit.
#[unsafe(no_mangle)]
pub extern "C" fn cenduxari_enrol(
    book: &mut [u64],
    kind: u64,
    capacity: u64,
    asset: u64,
    out: &mut [u64; 2],
) -> u64
    ensures { Called book.old [] (call_enrol kind capacity asset) result out.new book.new [] }
{
    tell(book::calls::enrol(book, kind, capacity, asset), out)
}

// Offers an amount for each period, to a partner or, with 0, as a listing.
#[unsafe(no_mangle)]
pub extern "C" fn cenduxari_offer(
    book: &mut [u64],
    unit: u64,
    partner: u64,
    price: u64,
    amounts: &[u64],
    out: &mut [u64; 2],
) -> u64
    ensures { Called book.old [] (call_offer unit partner price amounts.now) result out.new book.new [] }
{
    tell(book::calls::offer(book, unit, partner, price, amounts), out)
}

// Takes a quantity of an open offer.
#[unsafe(no_mangle)]
pub extern "C" fn cenduxari_take(
    book: &mut [u64],
    unit: u64,
    number: u64,
    quantity: u64,
    rows: &mut [u64],
    out: &mut [u64; 2],
) -> u64
    ensures { Called book.old rows.old (call_take unit number quantity (length rows.old)) result out.new
        book.new rows.new }
{
    tell(book::calls::take(book, unit, number, quantity, rows), out)
}

// Removes an own offer of which nothing is taken.
#[unsafe(no_mangle)]
pub extern "C" fn cenduxari_withdraw(
    book: &mut [u64],
    unit: u64,
    number: u64,
    out: &mut [u64; 2],
) -> u64
    ensures { Called book.old [] (call_withdraw unit number) result out.new book.new [] }
{
    tell(book::calls::withdraw(book, unit, number), out)
}

// Orders a quantity of a period.
#[unsafe(no_mangle)]
pub extern "C" fn cenduxari_order(
    book: &mut [u64],
    unit: u64,
    direction: u64,
    period: u64,
    price: u64,
    quantity: u64,
    rows: &mut [u64],
    out: &mut [u64; 2],
) -> u64
    ensures { Called book.old rows.old (call_order unit direction period price quantity (length rows.old)) result
        out.new book.new rows.new }
{
    tell(
        book::calls::order(book, unit, direction, period, price, quantity, rows),
        out,
    )
}

// Removes what is left of an own order.
#[unsafe(no_mangle)]
pub extern "C" fn cenduxari_cancel(
    book: &mut [u64],
    unit: u64,
    number: u64,
    out: &mut [u64; 2],
) -> u64
    ensures { Called book.old [] (call_cancel unit number) result out.new book.new [] }
{
    tell(book::calls::cancel(book, unit, number), out)
}

// Clears each period of the call phase, and begins the rolling phase.
#[unsafe(no_mangle)]
pub extern "C" fn cenduxari_clear(book: &mut [u64], rows: &mut [u64], out: &mut [u64; 2]) -> u64
    ensures { Called book.old rows.old (call_clear (length rows.old)) result out.new book.new
        rows.new }
{
    tell(book::calls::clear(book, rows), out)
}

// Closes the day.
#[unsafe(no_mangle)]
pub extern "C" fn cenduxari_close(book: &mut [u64], out: &mut [u64; 2]) -> u64
    ensures { Called book.old [] call_close result out.new book.new [] }
{
    tell(book::calls::close(book), out)
}

// The 48 points of a unit on a day. The book is read alone.
#[unsafe(no_mangle)]
pub extern "C" fn cenduxari_curve(
    book: &[u64],
    unit: u64,
    day: u64,
    points: &mut [u64],
    out: &mut [u64; 2],
) -> u64
    ensures { CurveDrawn book.now points.old unit day result out.new points.new }
{
    tell(book::calls::curve(book, unit, day, points), out)
}
