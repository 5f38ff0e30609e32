// The steps of `rehearse`: over bytes of the input, and at its end.
ghost use Rattle.std.specs.Prelude.{◌≡◌};
ghost use Rattle.lines.specs.Stepping.{state_of, fresh_desk, Stepped, Ended};

use crate::printing;
use crate::reading::{Reading, has_begun, line_end, read_bytes};
use book::places::ONE_DAY;

// Room for the longest answer, as bytes that a caller copies: `Memory.out` holds one in as many.
pub type Text = [u8; 95_256];

// The line so far, and whether an O was accepted. The book itself is fixed memory in its place, so no `Option` holds it.
#[derive(Clone, Copy)]
pub struct Desk {
    pub(crate) reading: Reading,
    pub(crate) started: bool,
}

// What goes from step to step, in fixed memory: the desk, the numbers of a line, of which no letter has more than 27, a book of
// one day, 744 rows of six numbers, and what the last step printed.
#[derive(Drop)]
pub struct Memory {
    pub desk: Desk,
    pub numbers: [u64; 27],
    pub book: [u64; ONE_DAY],
    pub rows: [u64; 4464],
    pub out: printing::Text,
}

impl Memory {
    // Before the first line.
    pub fn new() -> Memory
        ensures { result.desk ≡ fresh_desk }
    {
        Memory {
            desk: Desk {
                reading: Reading::Start,
                started: false,
            },
            numbers: [0; 27],
            book: [0; ONE_DAY],
            rows: [0; 4464],
            out: printing::Text::new(),
        }
    }

    // Reads to the next line end, or all bytes where there is none; answers the line that ends. Tells how many bytes it read.
    pub fn step(&mut self, bytes: &[u8]) -> usize
        ensures { Stepped (state_of self.old) bytes.now (state_of self.new) result self.new.out.items }
    {
        self.out.clear();
        let end = line_end(bytes);
        self.desk.reading = read_bytes(self.desk.reading, &bytes[..end], &mut self.numbers);
        if end == bytes.len() {
            return end;
        }
        self.answer();
        self.desk.reading = Reading::Start;
        end + 1
    }

    // The end of the input: answers a line that has begun.
    pub fn end(&mut self)
        ensures { Ended (state_of self.old) self.new.desk.started self.new.book self.new.out.items }
    {
        self.out.clear();
        if has_begun(self.desk.reading) {
            self.answer();
        }
    }
}
