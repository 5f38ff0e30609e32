// A lent book that is read, and what is known of its words. A call that writes keeps its slice: behind a `&mut` the fact would have
// to hold at each write, and a call's words are sound again only when it ends. That a place, a day or a unit's name lies in the book
// stays a clause, as for any index of a slice: a type for each would be tied to one book, and be no plainer. One kind of book is made
// of another by a literal: by a `From` it would be a fact to cite at each use that the words are the same, and a struct that held the
// other would lengthen each clause. What is asked of a book is a function of the file whose rule it is, not a method here. What links
// a book to tables beside it, or asks that memory is long enough to be written, stays a clause too.
ghost use Rattle.std.specs.Prelude.{◌≡◌, ◌≤◌, true};
ghost use Rattle.measures.specs.Ranges.{most_price};
ghost use Rattle.book.specs.Layout.{CEILING, word};
ghost use Rattle.book.specs.Inner.Readable.{Readable, Ranged};
ghost use Rattle.book.specs.Inner.Whole.{OrderLinks};
ghost use Rattle.book.specs.Contract.{sound_in};

use crate::standing::Links;

// A book whose head is in range and whose memory is long enough, so that each of its places can be read.
#[derive(Clone, Copy)]
pub(crate) struct ReadableBook<'a> {
    pub words: &'a [u64],
    ghost readable: { Readable words.now },
}

// A book whose units, offers and orders are in range too, and its prices.
#[derive(Clone, Copy)]
pub(crate) struct RangedBook<'a> {
    pub words: &'a [u64],
    ghost ranged: { Ranged words.now },
    ghost priced: { word words.now CEILING ≤ most_price },
}

// The same, with its orders linked by unit and day and by period. The tables of links are made for one check of a lent book, so
// that they live shorter than it.
#[derive(Clone, Copy)]
pub(crate) struct ChainedBook<'a, 'b> {
    pub words: &'a [u64],
    pub days: Links<'b>,
    pub periods: Links<'b>,
    ghost ranged: { Ranged words.now },
    ghost priced: { word words.now CEILING ≤ most_price },
    ghost linked: { OrderLinks words.now days periods },
}

// A sound book.
#[derive(Clone, Copy)]
pub(crate) struct SoundBook<'a> {
    pub words: &'a [u64],
    ghost sound: { sound_in words.now ≡ true },
}
