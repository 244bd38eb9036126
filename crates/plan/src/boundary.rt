ghost use Rattle.std.specs.Prelude.{◌≡◌, true, ◌⊎◌, ◌-◌, ◌≤◌, ◌<◌, length, drop};
ghost use Rattle.rules.specs.Station.{row_count, share_words};
ghost use Rattle.rules.specs.Slices.{is_end, with_end};
ghost use Rattle.plan.specs.Planned.{Planned, slices_in, begin_of};
ghost use Rattle.plan.specs.Asked.{PlanFrom};

use crate::ends::{place, put_in, take_out};
use rules::ROWS;
use table::cut::cut_row;
use table::shift::drop_row;

// Where the slice at place k begins: at the boundary before it, or at the plan start. (`checked_sub` and a `match` would say the same in more words.)
#[tactic(auto, unfolding(crate::specs::Planned::begin_of))]
fn begin(ends: &[u64; ROWS], k: usize, start: u64) -> u64
    requires { k < row_count }
    ensures { result ≡ begin_of start k ends.now }
{
    if k == 0 { start } else { ends[k - 1] }
}

// "If d is no boundary yet: where d falls inside a slice, that slice is cut in two; where d lies beyond the last
// boundary (or there is none), a new slice is added". The first slice begins at start; a new slice's row is zero
// already. Hands back how many boundaries there are then.
pub fn with_boundary(
    shares: &mut [u32],
    ends: &mut [u64; ROWS],
    count: usize,
    d: u64,
    start: u64,
) -> usize
    requires plan_from { PlanFrom start ends.old count shares.old }
    requires start_lt_d { start < d }
    requires room { (is_end d (slices_in ends.old count shares.old) ≡ true) ⊎ (count < row_count) }
    ensures planned { Planned
        (with_end d start (slices_in ends.old count shares.old))
        ends.new result shares.new }
    ensures shares_unchanged { drop share_words shares.new ≡ drop share_words shares.old }
{
    let at = place(ends, count, d);
    if at < count {
        let end = ends[at];
        if end == d {
            return count;
        }
        let lo = begin(ends, at, start);
        cut_row(shares, at, count, d - lo, end - lo);
    }
    put_in(ends, at, count, d);
    count + 1
}

// "row 0 is dropped, the rows move up, the last row becomes zero", and the first boundary goes with it.
pub fn drop_boundary(shares: &mut [u32], ends: &mut [u64; ROWS], count: usize)
    requires share_words_in_bounds { share_words ≤ length shares.old }
    requires planned { Planned (slices_in ends.old count shares.old) ends.old count shares.old }
    requires count_nonzero { 0 < count }
    ensures left { Planned
        (drop 1 (slices_in ends.old count shares.old))
        ends.new (count - 1) shares.new }
    ensures shares_unchanged { drop share_words shares.new ≡ drop share_words shares.old }
{
    drop_row(shares, count);
    take_out(ends, count);
}
