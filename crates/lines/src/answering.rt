// Answering a line on a book.
ghost use Rattle.std.specs.Prelude.{◌≡◌, ◌&&◌, false, [], MatchOption, length, eqb};
ghost use Rattle.lines.specs.Lines.{unknown, count_of, line_of};
ghost use Rattle.lines.specs.Readings.{rest_of};
ghost use Rattle.lines.specs.Stepping.{one_day, Answered};
ghost use Rattle.lines.specs.Inner.Letters.{byte_of, begins, beyond, MadeBy};

use crate::printing::{print_answer, print_no_call};
use crate::reading::Reading;
use crate::steps::Memory;
use book::Answer;
use book::calls::{cancel, clear, close, enrol, offer, order, take, withdraw};
use book::opening::open;
use book::places::{DAYS, LAYOUT, LAYOUT_NUMBER, UNITS};

// The letter that begins a line: O opens a book, and each other one makes its call.
#[derive(Clone, Copy, Debug, PartialEq, Eq)]
enum Letter {
    Open,
    Enrol,
    Offer,
    Take,
    Withdraw,
    Order,
    Cancel,
    Clear,
    Close,
}

impl Letter {
    // The letter that a byte is; any byte may stand in its place, and a line of another one has no error to tell.
    #[tactic(auto, unfolding(crate::specs::Lines::is_call))]
    fn of(byte: u8) -> Option<Letter>
        ensures { MatchOption result (begins byte ≡ false) (λ letter. byte ≡ byte_of letter) }
    {
        match byte {
            b'O' => Some(Letter::Open),
            b'E' => Some(Letter::Enrol),
            b'L' => Some(Letter::Offer),
            b'T' => Some(Letter::Take),
            b'W' => Some(Letter::Withdraw),
            b'R' => Some(Letter::Order),
            b'X' => Some(Letter::Cancel),
            b'C' => Some(Letter::Clear),
            b'D' => Some(Letter::Close),
            _ => None,
        }
    }

    // How many numbers follow it.
    #[tactic(auto, unfolding(crate::specs::Lines::count_of))]
    fn count(self) -> usize
        ensures { result ≡ count_of (byte_of self) }
    {
        match self {
            Letter::Open => 3,
            Letter::Enrol => 3,
            Letter::Offer => 27,
            Letter::Take => 3,
            Letter::Withdraw => 2,
            Letter::Order => 5,
            Letter::Cancel => 2,
            Letter::Clear => 0,
            Letter::Close => 0,
        }
    }
}

// The letter that a byte is, where so many numbers follow it.
fn letter_with(byte: u8, count: usize) -> Option<Letter>
    ensures { MatchOption result ((begins byte && eqb (count_of byte) count) ≡ false)
        (λ letter. (byte ≡ byte_of letter) × (count_of byte ≡ count)) }
{
    let letter = Letter::of(byte)?;
    if letter.count() != count {
        return None;
    }
    Some(letter)
}

// The letter of a line that ends, of which all numbers then stand in their places; none, where it is not understood.
#[tactic(auto, using(crate::proofs::ReadingLaws::end_large))]
fn end_line(reading: Reading, numbers: &mut [u64; 27]) -> Option<Letter>
    ensures { MatchOption result (rest_of reading numbers.old [] ≡ unknown)
        (λ letter. rest_of reading numbers.old [] ≡ line_of (byte_of letter) numbers.new) }
{
    match reading {
        Reading::Letter { letter } => letter_with(letter, 0),
        Reading::Digits {
            letter,
            count,
            value,
        } => {
            if 4_294_967_295 < value {
                return None;
            }
            if 27 <= count {
                return None;
            }
            numbers[count] = value;
            letter_with(letter, count + 1)
        }
        Reading::Start | Reading::Space { .. } | Reading::Lost => None,
    }
}

impl Memory {
    // Whether a book stands: an O was accepted, and the memory holds a book of one day.
    fn has_book(&self) -> bool
        ensures { result ≡ (self.now.desk.started && one_day self.now.book) }
    {
        self.desk.started && self.book[DAYS] == 1 && self.book[LAYOUT] == LAYOUT_NUMBER
    }

    // Whether a line that is understood makes no call: days over 1 are beyond this program's memory, as an enrol is when 8 units
    // stand, and a call asks for a book.
    fn is_beyond(&self, letter: Letter) -> bool
        ensures { result ≡ beyond (byte_of letter) self.now.numbers self.now.desk.started self.now.book }
    {
        if letter == Letter::Open {
            return 1 < self.numbers[0];
        }
        if !self.has_book() {
            return true;
        }
        letter == Letter::Enrol && 8 <= self.book[UNITS]
    }

    // Opens a book, or makes the call of a letter. Behind a `&mut self` a proof sees no length of an array, so `long` says it.
    fn make_call(&mut self, letter: Letter) -> Answer
        ensures made { MadeBy (byte_of letter) self.old.numbers self.old.book self.old.rows result self.new.book self.new.rows }
        ensures desk { self.new.desk ≡ self.old.desk }
        ensures long { length self.new.rows ≡ 4464 }
    {
        let numbers = &self.numbers;
        let book = &mut self.book;
        let rows = &mut self.rows;
        match letter {
            Letter::Open => open(book, numbers[0], numbers[1], numbers[2]),
            Letter::Enrol => enrol(book, numbers[0], numbers[1], numbers[2]),
            Letter::Offer => offer(book, numbers[0], numbers[1], numbers[2], &numbers[3..]),
            Letter::Take => take(book, numbers[0], numbers[1], numbers[2], rows),
            Letter::Withdraw => withdraw(book, numbers[0], numbers[1]),
            Letter::Order => order(
                book, numbers[0], numbers[1], numbers[2], numbers[3], numbers[4], rows,
            ),
            Letter::Cancel => cancel(book, numbers[0], numbers[1]),
            Letter::Clear => clear(book, rows),
            Letter::Close => close(book),
        }
    }

    // Answers the line at its end.
    pub(crate) fn answer(&mut self)
        ensures { Answered self.old.desk.started self.old.book (rest_of self.old.desk.reading self.old.numbers [])
            self.new.desk.started self.new.book self.new.out.items }
    {
        let Some(letter) = end_line(self.desk.reading, &mut self.numbers) else {
            return print_no_call(&mut self.out);
        };
        if self.is_beyond(letter) {
            return print_no_call(&mut self.out);
        }
        let answer = self.make_call(letter);
        self.desk.started |= answer.is_ok();
        print_answer(&mut self.out, answer, &self.rows);
    }
}
