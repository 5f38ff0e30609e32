// The curve of a unit on a day: paper 01, "The eight calls", Curve.
ghost use Rattle.std.specs.Prelude.{◌≡◌, ◌+◌, ◌-◌, ◌*◌, ◌<◌, ◌≤◌, ◌++◌, length, drop};
ghost use Rattle.measures.specs.Refused.{refusal_of};
ghost use Rattle.book.specs.Refusals.{first_refusal};
ghost use Rattle.book.specs.Curve.{curve_checks, points as points_of};
ghost use Rattle.book.specs.Layout.{DAYS, UNITS, word, decode, net_in};
ghost use Rattle.book.specs.Inner.Readable.{Netted};

use crate::lent::ReadableBook;
use crate::places::DAYS;
use crate::ranges::unit_known;
use crate::trades::figures_at;
use measures::{Energy, Refusal};

// The checks of a curve on a sound book.
#[tactic(auto, using(crate::proofs::Laws::Memory::RangeFacts::held, crate::proofs::Laws::Answer::MadeLaws::sound_readable), unfolding(crate::specs::Refusals::first_refusal))]
pub(crate) fn curve_checks(
    book: ReadableBook<'_>,
    unit: u64,
    day: u64,
    lent: usize,
) -> Result<(), Refusal>
    ensures { refusal_of result ≡ first_refusal (curve_checks (decode book.entry.words.now) unit day lent) }
{
    if !unit_known(book, unit) {
        return Err(Refusal::UnknownName);
    }
    if lent < 48 {
        return Err(Refusal::FewRows);
    }
    if book.words[DAYS] <= day {
        return Err(Refusal::BadPeriod);
    }
    Ok(())
}

// The net of the unit at place k in period p.
fn net_at(book: ReadableBook<'_>, k: usize, p: usize) -> Energy
    requires { (Netted book.words.now k) × (k < 64) × (p < 24 * word book.words.now DAYS) }
    ensures { result.0 ≡ net_in book.entry.words.now k p }
{
    let figures = figures_at(book.words, k, p);
    figures.net()
}

// Writes the 48 points of the unit at place k on a day, by the hour's index: `as_chunks_mut` and `chunks_exact_mut` were tried, and of
// what is written through them a proof knows nothing.
pub(crate) fn write_points(book: ReadableBook<'_>, k: usize, day: usize, points: &mut [u64])
    requires { (Netted book.words.now k) × (k < word book.words.now UNITS) × (day < word book.words.now DAYS) × (48 ≤ length points.old) }
    ensures { points.new ≡ points_of (decode book.entry.words.now) (k + 1) day ++ drop 48 points.old }
{
    for h in 0..24 {
        let net = net_at(book, k, 24 * day + h);
        let half = net.0 / 2;
        points[2 * h] = half;
        points[2 * h + 1] = net.0 - half;
    }
}
