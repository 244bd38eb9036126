ghost use Rattle.std.specs.Prelude.{◌≡◌, ◌≤◌, ◌&&◌, ltb, leb, if◌then◌else◌, nat_eq, nat_le, nat_lt};
ghost use Rattle.rules.specs.Station.{grains, longest_period};
ghost use Rattle.rows.specs.Row.{mark, share_fits, Rated, Facts};

use rules::SLOTS;

// The highest bit of a word.
const MARK: u32 = 2147483648;

// What a sound table asks of a row, in one pass: whether each share fits, the shares added up where they do, the rates
// of the jobs that are due at the slice's end or after it, and how many are due at it. Flag and sum are no Option: tried
// so, the compiled sum stands behind a test of the flag, and a row takes a sixth more instructions.
#[derive(Clone, Copy, Debug, PartialEq, Eq)]
pub struct RowFacts {
    pub fits: bool,
    pub sum: u64,
    pub owed: u64,
    pub hits: u64,
}

// What a share may be at most: nothing where its slice ends after its job's deadline.
fn bound(due: u32, end: u32, most: u32) -> u32
    ensures { result ≡ (if ltb due end then 0 else most) }
{
    if due < end { 0 } else { most }
}

// A word whose highest bit is set exactly where a share is more than its bound, without a test: the difference wraps.
fn excess(share: u32, most: u32) -> u32
    requires { most ≤ grains longest_period }
    ensures { nat_lt result mark ≡ nat_le share most }
{
    share | most.wrapping_sub(share)
}

// The highest bit of either word.
fn marked(over: u32, more: u32) -> u32
    ensures { nat_lt result mark ≡ (nat_lt over mark && nat_lt more mark) }
{
    over | more
}

// The mark that some share does not fit, with one share more.
fn with_share(over: u32, share: u32, due: u32, end: u32, most: u32) -> u32
    requires { most ≤ grains longest_period }
    ensures { nat_lt result mark ≡ (nat_lt over mark && share_fits end most due share) }
{
    let at_most = bound(due, end, most);
    marked(over, excess(share, at_most))
}

// The rate of a job that is due at the end or after it, or 0.
pub fn rate_due(rate: u32, due: u32, end: u32) -> u32
    ensures value { result ≡ (if leb end due then rate else 0) }
    ensures upper_bound { result ≤ rate }
{
    if end <= due { rate } else { 0 }
}

// 1 for a job that is due at the end.
pub fn hit(due: u32, end: u32) -> u32
    ensures value { result ≡ (if nat_eq end due then 1 else 0) }
    ensures upper_bound { result ≤ 1 }
{
    u32::from(end == due)
}

// The row of a slice that ends `end` ticks after the plan start and has `most` grains. `due` has each slot's deadline,
// in ticks after the plan start, or 0 where no job is pending. All words have 32 bits, so that the compiler takes four
// slots at once: where each share fits, the sum has not wrapped.
pub fn look(
    row: &[u32; SLOTS],
    due: &[u32; SLOTS],
    rates: &[u32; SLOTS],
    end: u32,
    most: u32,
) -> RowFacts
    requires { Rated rates.now most }
    ensures { Facts end most due.now rates.now row.now result }
{
    let mut over: u32 = 0;
    let mut sum: u32 = 0;
    let mut owed: u32 = 0;
    let mut hits: u32 = 0;
    // One place in all three rows and no zip: the library has no law of a zip of three.
    for (i, &share) in row.iter().enumerate() {
        over = with_share(over, share, due[i], end, most);
        sum = sum.wrapping_add(share);
        owed += rate_due(rates[i], due[i], end);
        hits += hit(due[i], end);
    }
    RowFacts {
        fits: over < MARK,
        sum: u64::from(sum),
        owed: u64::from(owed),
        hits: u64::from(hits),
    }
}
