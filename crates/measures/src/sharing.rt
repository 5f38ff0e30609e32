// The parts of an amount: each place's share rounded down, and the kWh left over one each to the largest fractions (paper 02, job 14).
// A rounded part and its fraction stand in one number while the largest fractions are looked for, so that no list is needed beside
// the parts.
ghost use Rattle.std.specs.Prelude.{◌≡◌, ◌++◌, ◌+◌, ◌*◌, ◌-◌, ◌/◌, ◌≤◌, ◌<◌, leb, ltb, true, false, ◌&&◌, length, drop, fold, ◌%◌};
ghost use Rattle.measures.specs.Ranges.{most_energy};
ghost use Rattle.measures.specs.Sharing.{parts as parts_of};
ghost use Rattle.measures.specs.Inner.Cuts.{half, rest, reach, ties, higher_below, lower_from, Shareable, Written, Divided, Between, Edged, Nearer, settled};

// What a rounded part is multiplied by, so that its fraction can stand beside it.
const HALF: u64 = 4_294_967_296;

// How many turns look by proportion, before the others halve.
const QUICK: u64 = 8;

// Where the search for the largest fractions stands: the `wanted` largest end from `low` to below `high`, `from` fractions are `low`
// or more, and `above` are `high` or more. `next` is where to look next, if it lies between the two; for `quick` looks more it is found by
// proportion.
#[derive(Clone, Copy)]
struct Search<'a> {
    parts: &'a [u64],
    wanted: u64,
    low: u64,
    high: u64,
    above: u64,
    from: u64,
    next: Option<u64>,
    quick: u64,
    ghost between: { Between (rest parts.now) (length parts.now) wanted low high above from },
    ghost few: { wanted ≤ most_energy },
}

// Where the fractions that get one kWh more end: `above` of them lie above `at`.
#[derive(Clone, Copy)]
struct Edge {
    at: u64,
    above: u64,
}

// Writes each amount's part rounded down, and its fraction; returns the kWh left over.
fn divide(d: u64, whole: u64, amounts: &[u64], parts: &mut [u64]) -> u64
    requires { Shareable d whole amounts.now parts.old }
    ensures { Divided d amounts.now parts.old parts.new result }
{
    let mut left = d;
    // by index in `parts`: of what is written through a `zip` a proof knows the length alone
    for (i, r) in amounts.iter().enumerate() {
        let product = d * *r;
        let quotient = product / whole;
        parts[i] = quotient * HALF + product % whole;
        left -= quotient;
    }
    left
}

// How many fractions are m or more.
fn reaching(parts: &[u64], m: u64) -> u64
    ensures { result ≡ reach (rest parts.now) (length parts.now) m }
{
    let mut count: u64 = 0;
    for part in parts {
        count += u64::from(m <= *part % HALF);
    }
    count
}

// The larger of `best` and a fraction, if that is below m.
fn higher(m: u64, best: u64, fraction: u64) -> u64
    ensures { result ≡ higher_below m best fraction }
{
    if fraction < m {
        return fraction.max(best);
    }
    best
}

// The largest of `low` and the fractions below m. `lowest` is the same fold by another step: one function that took the step would be
// `fold` itself.
fn highest(parts: &[u64], m: u64, low: u64) -> u64
    ensures { result ≡ fold (λ best part. higher_below m best (part % half)) low parts.now }
{
    parts
        .iter()
        .fold(low, |best, part| higher(m, best, *part % HALF))
}

// The smaller of `best` and a fraction, if that is m or more.
fn lower(m: u64, best: u64, fraction: u64) -> u64
    ensures { result ≡ lower_from m best fraction }
{
    if fraction < m {
        return best;
    }
    fraction.min(best)
}

// The smallest of `high` and the fractions from m on.
fn lowest(parts: &[u64], m: u64, high: u64) -> u64
    ensures { result ≡ fold (λ best part. lower_from m best (part % half)) high parts.now }
{
    parts
        .iter()
        .fold(high, |best, part| lower(m, best, *part % HALF))
}

// How far below the upper bound to look: by proportion while `quick` turns are left, then half way. Any place between the bounds will
// do: it decides on the time alone.
fn step(width: u64, wanted: u64, among: u64, quick: u64) -> u64
    requires { (2 ≤ width) × (width ≤ most_energy) × (wanted ≤ most_energy) × (0 < among) }
    ensures { (0 < result) × (result < width) }
{
    if quick == 0 {
        return width / 2;
    }
    (width * wanted / among).clamp(1, width - 1)
}

impl<'a> Search<'a> {
    // Where to look next.
    fn look(&self) -> u64
        requires { (self.now.low + 2 ≤ self.now.high) × (self.now.above < self.now.wanted) }
        ensures { (self.now.low < result) × (result < self.now.high) }
    {
        if let Some(next) = self.next {
            if self.low < next && next < self.high {
                return next;
            }
        }
        self.high
            - step(
                self.high - self.low,
                self.wanted - self.above,
                self.from - self.above,
                self.quick,
            )
    }

    // The same search between other bounds, one look later. Each field is named: a struct with ghost fields takes no `..`.
    fn moved(&self, low: u64, high: u64, above: u64, from: u64, next: Option<u64>) -> Search<'a>
        requires { Between (rest self.now.parts.now) (length self.now.parts.now) self.now.wanted low high above from }
        ensures { (result.parts.now ≡ self.now.parts.now) × (result.wanted ≡ self.now.wanted) × (result.low ≡ low) × (result.high ≡ high) }
    {
        Search {
            parts: self.parts,
            wanted: self.wanted,
            low,
            high,
            above,
            from,
            next,
            quick: self.quick.saturating_sub(1),
        }
    }

    // The lower bound becomes m, which `count` fractions reach; where as many reach the bound before, the smallest of them.
    // `raised` and `lowered` are mirror images: one method with a flag for the bound that moves would be no plainer.
    fn raised(&self, m: u64, count: u64) -> Search<'a>
        requires { (self.now.low < m) × (m < self.now.high) × (count ≡ reach (rest self.now.parts.now) (length self.now.parts.now) m) × (self.now.wanted < count) }
        ensures { Nearer self.now.parts.now self.now.wanted self.now.low self.now.high result.parts.now result.wanted result.low result.high }
    {
        if count < self.from || self.high - m < 2 {
            return self.moved(m, self.high, self.above, count, None);
        }
        let low = lowest(self.parts, m, self.high);
        self.moved(low, self.high, self.above, count, Some(low + 1))
    }

    // The upper bound is m, which `count` fractions reach; where as many reach the bound before, one more than the largest fraction
    // below m.
    fn lowered(&self, m: u64, count: u64) -> Search<'a>
        requires { (self.now.low < m) × (m < self.now.high) × (count ≡ reach (rest self.now.parts.now) (length self.now.parts.now) m) × (count ≤ self.now.wanted) }
        ensures { Nearer self.now.parts.now self.now.wanted self.now.low self.now.high result.parts.now result.wanted result.low result.high }
    {
        if self.above < count || m - self.low < 2 {
            return self.moved(self.low, m, count, self.from, None);
        }
        let best = highest(self.parts, m, self.low);
        self.moved(self.low, best + 1, count, self.from, Some(best))
    }

    // Whether the end is still looked for.
    fn is_open(&self) -> bool
        ensures { result ≡ (ltb self.now.above self.now.wanted && leb 2 (self.now.high - self.now.low)) }
    {
        self.above < self.wanted && 2 <= self.high - self.low
    }

    // The search, one look further.
    fn narrowed(&self) -> Search<'a>
        requires { (ltb self.now.above self.now.wanted && leb 2 (self.now.high - self.now.low)) ≡ true }
        ensures { Nearer self.now.parts.now self.now.wanted self.now.low self.now.high result.parts.now result.wanted result.low result.high }
    {
        let m = self.look();
        let count = reaching(self.parts, m);
        if self.wanted < count {
            return self.raised(m, count);
        }
        self.lowered(m, count)
    }

    // Where the fractions that were looked for end.
    fn edge(&self) -> Edge
        requires { (ltb self.now.above self.now.wanted && leb 2 (self.now.high - self.now.low)) ≡ false }
        ensures { Edged (rest self.now.parts.now) (length self.now.parts.now) self.now.wanted result.at result.above × (result.at < most_energy) }
    {
        if self.above < self.wanted {
            return Edge {
                at: self.low,
                above: self.above,
            };
        }
        Edge {
            at: self.high - 1,
            above: self.above,
        }
    }
}

// Where the k largest fractions end; each of them is below `whole`. It looks first at the fractions' mean.
fn find_edge(parts: &[u64], whole: u64, k: u64) -> Edge
    requires { (0 < whole) × (whole ≤ most_energy) × (k ≤ length parts.now) × (k ≤ most_energy) × (reach (rest parts.now) (length parts.now) whole ≡ 0) }
    ensures { Edged (rest parts.now) (length parts.now) k result.at result.above × (result.at < most_energy) }
{
    let all = parts.len() as u64;
    let mut search = Search {
        parts,
        wanted: k,
        low: 0,
        high: whole,
        above: 0,
        from: all,
        next: (whole * k).checked_div(all),
        quick: QUICK,
    };
    // The bounds close in: no index is counted.
    while search.is_open() {
        search = search.narrowed();
    }
    search.edge()
}

// The place behind the first `wanted` fractions that are `at`.
fn ties_end(parts: &[u64], at: u64, wanted: u64) -> usize
    requires { wanted ≤ ties (rest parts.now) (length parts.now) at }
    ensures { (result ≤ length parts.now) × (ties (rest parts.now) result at ≡ wanted) }
{
    let mut left = wanted;
    for (i, part) in parts.iter().enumerate() {
        if left == 0 {
            return i;
        }
        if *part % HALF == at {
            left -= 1;
        }
    }
    parts.len()
}

// Leaves the rounded parts, and one more where the fraction is m or more.
fn settle(parts: &mut [u64], m: u64)
    ensures { Written 0 (length parts.old) (settled m parts.old) parts.old parts.new }
{
    for part in parts.iter_mut() {
        *part = *part / HALF + u64::from(m <= *part % HALF);
    }
}

// Writes the parts of d over the amounts, whose sum is `whole`.
pub(crate) fn write_parts(d: u64, whole: u64, amounts: &[u64], parts: &mut [u64])
    requires { Shareable d whole amounts.now parts.old }
    ensures { parts.new ≡ parts_of d amounts.now ++ drop (length amounts.now) parts.old }
{
    let n = amounts.len();
    let odd = divide(d, whole, amounts, parts);
    let edge = find_edge(&parts[..n], whole, odd);
    let end = ties_end(&parts[..n], edge.at, odd - edge.above);
    settle(&mut parts[..end], edge.at);
    settle(&mut parts[end..n], edge.at + 1);
}
