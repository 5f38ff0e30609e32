// Reading a line in pieces of any length.
ghost use Rattle.std.specs.Prelude.{◌≡◌, ◌+◌, ◌*◌, ◌≤◌, ◌<◌, ℕ, List, [], ◌∷◌, MatchOption, length};
ghost use Rattle.lines.specs.Readings.{begun, ReadsOn};
ghost use Rattle.lines.specs.Stepping.{until_end};

// What is kept of a line's bytes so far. Its numbers that are complete stand in fixed memory; how many they are is part of what was
// read, by which the definitions go. Definitions name a case by its fields, and a struct
// in a case would be taken apart by each function that takes them.
#[derive(Clone, Copy)]
pub enum Reading {
    // No byte yet.
    Start,
    // One byte, the letter.
    Letter {
        letter: u8,
    },
    // The letter, so many numbers, and a space.
    Space {
        letter: u8,
        count: usize,
    },
    // The letter, so many numbers, a space, and digits of this value: of 64 bits, so that a number of 2^32 is seen.
    Digits {
        letter: u8,
        count: usize,
        value: u64,
    },
    // Not understood, whatever follows.
    Lost,
}

fn after_start(byte: u8) -> Reading
    ensures { (ns : List ℕ) → ReadsOn Reading.Start ns (byte ∷ []) result ns }
{
    match byte {
        b' ' => Reading::Lost,
        letter => Reading::Letter { letter },
    }
}

fn after_letter(letter: u8, byte: u8) -> Reading
    ensures { (ns : List ℕ) → ReadsOn (Reading.Letter letter) ns (byte ∷ []) result ns }
{
    match byte {
        b' ' => Reading::Space { letter, count: 0 },
        _ => Reading::Lost,
    }
}

// The value with a digit more, where it stays below 2^32.
fn with_digit(value: u64, digit: u8) -> Option<u64>
    ensures { MatchOption result (4294967296 ≤ value * 10 + digit) (λ n. (n ≡ value * 10 + digit) × (n < 4294967296)) }
{
    let next = value.checked_mul(10)?.checked_add(u64::from(digit))?;
    if 4_294_967_295 < next {
        return None;
    }
    Some(next)
}

// A digit more of a number, whose value is 0 before the first; the number stays below 2^32.
fn after_digit(letter: u8, count: usize, value: u64, byte: u8) -> Reading
    ensures more { (byte ≡ 32 → ⊥) → (ns : List ℕ) → ReadsOn (Reading.Digits letter count value) ns (byte ∷ []) result ns }
    ensures space { byte ≡ 32 → result ≡ Reading.Lost }
{
    match byte {
        b'0'..=b'9' => match with_digit(value, byte - b'0') {
            Some(value) => Reading::Digits {
                letter,
                count,
                value,
            },
            None => Reading::Lost,
        },
        _ => Reading::Lost,
    }
}

// A number is complete and goes to its place; no line has more than 27. At a line's end it does too
// (`end_line`): no space may follow the last of them, so the bounds differ.
fn after_number(letter: u8, count: usize, value: u64, numbers: &mut [u64; 27]) -> Reading
    ensures { ReadsOn (Reading.Digits letter count value) numbers.old (32 ∷ []) result numbers.new }
{
    if 26 <= count {
        return Reading::Lost;
    }
    if 4_294_967_295 < value {
        return Reading::Lost;
    }
    numbers[count] = value;
    Reading::Space {
        letter,
        count: count + 1,
    }
}

// One byte more of a line.
fn read_byte(reading: Reading, byte: u8, numbers: &mut [u64; 27]) -> Reading
    ensures { ReadsOn reading numbers.old (byte ∷ []) result numbers.new }
{
    match reading {
        Reading::Start => after_start(byte),
        Reading::Letter { letter } => after_letter(letter, byte),
        Reading::Space { letter, count } => after_digit(letter, count, 0, byte),
        Reading::Digits {
            letter,
            count,
            value,
        } => {
            if byte == b' ' {
                return after_number(letter, count, value, numbers);
            }
            after_digit(letter, count, value, byte)
        }
        Reading::Lost => Reading::Lost,
    }
}

// A piece more of a line.
pub(crate) fn read_bytes(reading: Reading, piece: &[u8], numbers: &mut [u64; 27]) -> Reading
    ensures { ReadsOn reading numbers.old piece.now result numbers.new }
{
    let mut read = reading;
    for byte in piece {
        read = read_byte(read, *byte, numbers);
    }
    read
}

// Whether a byte of the line was read.
pub(crate) fn has_begun(reading: Reading) -> bool
    ensures { result ≡ begun reading }
{
    !matches!(reading, Reading::Start)
}

// Where the running line ends: the first line end, or the end of the bytes.
pub(crate) fn line_end(bytes: &[u8]) -> usize
    ensures { result ≡ length (until_end bytes.now) }
{
    bytes
        .iter()
        .position(|byte| *byte == b'\n')
        .unwrap_or(bytes.len())
}
