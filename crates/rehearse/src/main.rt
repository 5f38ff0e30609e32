// The program `rehearse` (paper 01): reads standard input and writes to standard output what the steps of the proved
// library `lines` print.
#![tactic(auto)]

ghost use Rattle.std.specs.Prelude.{◌≡◌, OnOk};
ghost use Rattle.std.specs.Io.KnownBytes.{IsAtEnd};
ghost use Rattle.lines.specs.Stepping.{state_of, fresh_desk};
ghost use Rattle.rehearse.specs.Running.{PieceAnswered, ReadFrom, Rehearsal};

use lines::steps::Memory;
use std::io::{self, Read, Write};
use std::rt::HostRuntime;

// Steps over the whole piece, and writes what each step prints. After a write that fails, which is told, the lines go on
// being answered.
fn answer_piece<W: Write>(memory: &mut Memory, piece: &[u8], output: &mut W) -> io::Result<()>
    ensures { PieceAnswered (state_of memory.old) piece.now (state_of memory.new) (W.contents output.old) result (W.contents output.new) }
{
    let mut written = Ok(());
    let mut rest = piece;
    // No index is counted: what is left shrinks by what a step has read.
    while !rest.is_empty() {
        let used = memory.step(rest);
        written = written.and(output.write_all(memory.out.as_slice()));
        rest = &rest[used..];
    }
    written
}

// Reads to the end of the input, piece after piece. A proved loop has to end, and nothing says that an input does: so there
// are as many turns as no run uses up.
fn answer_input<I: Read, W: Write>(
    memory: &mut Memory,
    input: &mut I,
    output: &mut W,
) -> io::Result<()>
    ensures reads { ReadFrom (state_of memory.old) (state_of memory.new) (I.remaining input.old) (I.remaining input.new)
        (W.contents output.old) result (W.contents output.new) }
    ensures ends { OnOk result (IsAtEnd (I.remaining input.new)) }
{
    let mut piece = [0u8; 4096];
    let mut written = Ok(());
    'turns: for _ in 0..u64::MAX {
        let count = input.read(&mut piece)?;
        if count == 0 {
            return written;
        }
        written = written.and(answer_piece(memory, &piece[..count], output));
    }
    Err(io::Error::from(io::ErrorKind::Other))
}

// Answers the whole input, and a last line that has no line end. A read that fails ends it, and is told.
fn answer_all<I: Read, W: Write>(
    memory: &mut Memory,
    input: &mut I,
    output: &mut W,
) -> io::Result<()>
    requires { memory.old.desk ≡ fresh_desk }
    ensures { Rehearsal memory.old.numbers memory.old.book memory.new.desk.started memory.new.book (I.remaining input.old)
        (I.remaining input.new) (W.contents output.old) result (W.contents output.new) }
{
    let written = answer_input(memory, input, output);
    memory.end();
    written.and(output.write_all(memory.out.as_slice()))
}

// What it leaves is what `answer_all` ensures: an entry function takes no clause. What failed is passed over.
fn main(rt: HostRuntime) {
    let mut memory = Memory::new();
    let mut input = rt.stdin();
    let mut output = io::writer(&rt);
    let _ = answer_all(&mut memory, &mut input, &mut output);
}
