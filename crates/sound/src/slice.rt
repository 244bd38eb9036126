ghost use Rattle.std.specs.Prelude.{◌≡◌, ◌&&◌, ◌+◌, ◌≤◌, ◌<◌, eqb, take, drop};
ghost use Rattle.rules.specs.Station.{longest_period, slot_count, row_count, sum};
ghost use Rattle.rules.specs.Sound.{each_slice};
ghost use Rattle.rules.specs.Words.{rows_of, row_at, slices_of};
ghost use Rattle.sound.specs.Due.{Beside, slice_check, slice_hits, all_hits, slice_at, row_test};

use rows::look::RowFacts;
use rules::{GRAINS, LONGEST_PERIOD, ROWS};
use slots::test::Dues;
use table::row::row_look;

// Whether slices are sound, and how many jobs are due at their ends. That number is promised where `ok` is false too, so both are handed
// back.
#[derive(Clone, Copy)]
pub struct SliceFacts {
    pub ok: bool,
    pub hits: u64,
}

// The time of a slice, and the plan start.
#[derive(Clone, Copy)]
pub struct Span {
    pub start: u64,
    pub from: u64,
    pub end: u64,
}

// What one pass over the row gave, for a slice that is `long` ticks long.
#[tactic(auto, unfolding(crate::specs::Due::row_test, rules::specs::Sound::every))]
fn row_fits(row: RowFacts, long: u64) -> bool
    requires long_le_longest_period { long ≤ longest_period }
    requires owed_bound { row.owed ≤ 4294967295 }
    ensures { result ≡ row_test row.fits row.sum long row.owed row.hits }
{
    row.fits && row.sum <= long * row.owed && 0 < row.hits
}

// Row k and the time of its slice. Any times may come: those that no sound table has are answered before anything is computed.
fn one_slice(shares: &[u32], k: usize, dues: &Dues, span: Span) -> SliceFacts
    requires beside { Beside dues.now.rates shares.now }
    requires k_lt_row_count { k < row_count }
    ensures ok_value { result.ok ≡ slice_check span.start dues.now.due dues.now.rates span.from
        (slice_at span.end (row_at k shares.now)) }
    ensures hits_value { result.hits ≡ slice_hits span.start dues.now.due span.from
        (slice_at span.end (row_at k shares.now)) }
    ensures hits_le_slot_count { result.hits ≤ slot_count }
{
    let at = span.end.saturating_sub(span.start);
    let long = span.end.saturating_sub(span.from);
    if long == 0 || LONGEST_PERIOD < at || LONGEST_PERIOD < long {
        return SliceFacts { ok: false, hits: 0 };
    }
    let most = (GRAINS * long) as u32;
    let row = row_look(shares, k, &dues.due, &dues.rates, at as u32, most);
    SliceFacts {
        ok: row_fits(row, long),
        hits: row.hits,
    }
}

// What was found so far, with one slice more.
fn with_slice(found: SliceFacts, one: SliceFacts) -> SliceFacts
    requires hits_bound { found.hits ≤ 4096 }
    requires hits_le_slot_count { one.hits ≤ slot_count }
    ensures ok_value { result.ok ≡ found.ok && one.ok }
    ensures hits_value { result.hits ≡ found.hits + one.hits }
{
    SliceFacts {
        ok: found.ok && one.ok,
        hits: found.hits + one.hits,
    }
}

// All slices: boundary k with row k, `count` of them, the first from the plan start. The number goes with the boundaries, as those past it are
// asked for too (below).
pub fn slices_sound(
    shares: &[u32],
    dues: &Dues,
    ends: &[u64; ROWS],
    count: usize,
    start: u64,
) -> SliceFacts
    requires beside { Beside dues.now.rates shares.now }
    requires count_le_row_count { count ≤ row_count }
    ensures ok_value { result.ok ≡ each_slice (slice_check start dues.now.due dues.now.rates) start
        (slices_of (take count ends.now) (rows_of row_count shares.now)) }
    ensures hits_value { result.hits ≡ all_hits start dues.now.due start
        (slices_of (take count ends.now) (rows_of row_count shares.now)) }
{
    let mut found = SliceFacts { ok: true, hits: 0 };
    let mut from = start;
    for (k, &end) in ends[..count].iter().enumerate() {
        let span = Span { start, from, end };
        found = with_slice(found, one_slice(shares, k, dues, span));
        from = end;
    }
    found
}

// No boundary is left past the last.
pub fn ends_zero(ends: &[u64; ROWS], count: usize) -> bool
    requires { count ≤ row_count }
    ensures { result ≡ eqb (sum (drop count ends.now)) 0 }
{
    ends[count..].iter().all(|&end| end == 0)
}
