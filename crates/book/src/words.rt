// Runs of words of a book's memory: methods of a slice, with what they leave said by a definition.
ghost use Rattle.std.specs.Prelude.{◌+◌, ◌≤◌, length};
ghost use Rattle.book.specs.Inner.Runs.{Emptied, Shifted};

// The words from one place up to another become 0.
pub(crate) fn empty(book: &mut [u64], from: usize, to: usize)
    requires { (from ≤ to) × (to ≤ length book.old) }
    ensures { Emptied book.old from to book.new }
{
    book[from..to].fill(0);
}

// The words from one place up to another become those a step behind them.
pub(crate) fn shift(book: &mut [u64], from: usize, to: usize, step: usize)
    requires { (from ≤ to) × (to + step ≤ length book.old) }
    ensures { Shifted book.old from to step book.new }
{
    book.copy_within(from + step..to + step, from);
}
