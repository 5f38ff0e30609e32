// Printing answers into fixed memory.
ghost use Rattle.std.specs.Prelude.{◌≡◌, ◌+◌, ◌*◌, ◌/◌, ◌≤◌, [], ◌∷◌, ◌++◌, IfOk, length};
ghost use Rattle.lines.specs.Printed.{spaced, printed_no};
ghost use Rattle.lines.specs.Inner.Puts.{row_text, rows_text, ok_text, answer_text};

use arrayvec::ArrayVec;
use book::Answer;
use itoa::write_digits;

// Room for the longest answer, which is `ok` with a number in 24 bytes, and 744 rows in 128 bytes each. Each function asks for the room
// that it fills, so that all of it is written.
pub type Text = ArrayVec<u8, 95_256>;

fn put_text(out: &mut Text, text: &[u8])
    requires { length out.old.items + length text.now ≤ 95256 }
    ensures { out.new.items ≡ out.old.items ++ text.now }
{
    let _fits = out.try_extend_from_slice(text);
}

// A space and a number.
fn put_field(out: &mut Text, n: u64)
    requires { length out.old.items + 21 ≤ 95256 }
    ensures puts { out.new.items ≡ out.old.items ++ spaced (n ∷ []) }
    ensures short { length out.new.items ≤ length out.old.items + 21 }
{
    let mut digits = [0u8; 20];
    let first = write_digits(n, &mut digits, 20);
    put_text(out, b" ");
    put_text(out, &digits[first..]);
}

fn put_fields(out: &mut Text, numbers: &[u64])
    requires { length out.old.items + 21 * length numbers.now ≤ 95256 }
    ensures puts { out.new.items ≡ out.old.items ++ spaced numbers.now }
    ensures short { length out.new.items ≤ length out.old.items + 21 * length numbers.now }
{
    for n in numbers {
        put_field(out, *n);
    }
}

// `t` and the six fields of a row. A row has no `Display`: this is the paper's own form, as bytes, without allocation.
fn put_row(out: &mut Text, row: &[u64; 6])
    requires { length out.old.items + 128 ≤ 95256 }
    ensures puts { out.new.items ≡ out.old.items ++ row_text row.now }
    ensures short { length out.new.items ≤ length out.old.items + 128 }
{
    put_text(out, b"t");
    put_fields(out, row);
    put_text(out, b"\n");
}

// Whole rows, of six words each.
fn put_rows(out: &mut Text, rows: &[u64])
    requires { length out.old.items + 128 * (length rows.now / 6) ≤ 95256 }
    ensures puts { out.new.items ≡ out.old.items ++ rows_text (length rows.now / 6) rows.now }
    ensures short { length out.new.items ≤ length out.old.items + 128 * (length rows.now / 6) }
{
    let (whole, _) = rows.as_chunks::<6>();
    for row in whole {
        put_row(out, row);
    }
}

// A word of two letters, a number and the line end.
fn print_head(out: &mut Text, word: &[u8; 2], number: u64)
    ensures puts { out.new.items ≡ word.now ++ (spaced (number ∷ []) ++ (10 ∷ [])) }
    ensures short { length out.new.items ≤ 24 }
{
    out.clear();
    put_text(out, word);
    put_field(out, number);
    put_text(out, b"\n");
}

// `no` and a number.
fn print_no(out: &mut Text, number: u64)
    ensures puts { out.new.items ≡ printed_no number }
    ensures short { length out.new.items ≤ 24 }
{
    print_head(out, b"no", number);
}

// `ok` and the number, then the rows.
fn print_ok(out: &mut Text, number: u64, rows: &[u64])
    requires { length rows.now ≤ 4464 }
    ensures puts { out.new.items ≡ ok_text number (length rows.now / 6) rows.now }
    ensures short { length out.new.items ≤ 24 + 128 * (length rows.now / 6) }
{
    print_head(out, b"ok", number);
    put_rows(out, rows);
}

// `no 0`, where a line makes no call.
pub(crate) fn print_no_call(out: &mut Text)
    ensures { out.new.items ≡ printed_no 0 }
{
    print_no(out, 0);
}

// What a call answers: of the rows, the first ones that it counts. They stand in fixed memory, which a call fills as far as it says.
pub(crate) fn print_answer(out: &mut Text, answer: Answer, rows: &[u64])
    requires counted { IfOk answer (λ done. 6 * done.count ≤ length rows.now) }
    requires most { length rows.now ≤ 4464 }
    ensures { out.new.items ≡ answer_text answer rows.now }
{
    match answer {
        Ok(done) => print_ok(out, done.number, &rows[..6 * done.count]),
        Err(refusal) => print_no(out, u64::from(refusal)),
    }
}
