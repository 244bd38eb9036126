ghost use Rattle.std.specs.Prelude.{ℕ, ◌+◌, ◌≤◌, ◌<◌, length, get_or, set};
ghost use Rattle.rules.specs.Station.{slot_count, row_count, share_words, zeros};
ghost use Rattle.rules.specs.Release.{lower_row};
ghost use Rattle.rules.specs.Words.{row_at};
ghost use Rattle.rows.specs.Row.{Rated, Facts};
ghost use Rattle.line.specs.Asked.{Lower};
ghost use Rattle.table.specs.Row.{RowSet};

use rows::look::RowFacts;
use rules::SLOTS;

// What a sound table asks of row k, whose slice ends `end` ticks after the plan start and has `most` grains.
pub fn row_look(
    shares: &[u32],
    k: usize,
    due: &[u32; SLOTS],
    rates: &[u32; SLOTS],
    end: u32,
    most: u32,
) -> RowFacts
    requires share_words_in_bounds { share_words ≤ length shares.now }
    requires k_lt_row_count { k < row_count }
    requires rated { Rated rates.now most }
    ensures { Facts end most due.now rates.now (row_at k shares.now) result }
{
    let a = SLOTS * k;
    let row = shares[a..a + SLOTS].as_array().unwrap();
    rows::look::look(row, due, rates, end, most)
}

// Row k becomes zero.
pub fn row_clear(shares: &mut [u32], k: usize)
    requires share_words_in_bounds { share_words ≤ length shares.old }
    requires k_lt_row_count { k < row_count }
    ensures { RowSet shares.old k zeros shares.new }
{
    let (_, from) = shares.split_at_mut(SLOTS * k);
    rows::store::clear(from.first_chunk_mut().unwrap());
}

// One slot of row k gets more grains.
pub fn row_add(shares: &mut [u32], k: usize, slot: usize, grains: u64)
    requires share_words_in_bounds { share_words ≤ length shares.old }
    requires k_lt_row_count { k < row_count }
    requires slot_lt_slot_count { slot < slot_count }
    requires grains_bound { get_or (row_at k shares.old) slot 0 + grains ≤ 4294967295 }
    ensures { RowSet shares.old k
        (set (row_at k shares.old) slot (get_or (row_at k shares.old) slot 0 + grains))
        shares.new }
{
    let (_, from) = shares.split_at_mut(SLOTS * k);
    rows::store::add(from.first_chunk_mut().unwrap(), slot, grains);
}

// Each share of row k, whose slice has `slice` grains, is lowered by what its task has run in the first `run`.
pub fn row_lower(shares: &mut [u32], k: usize, slice: u64, run: u64)
    requires share_words_in_bounds { share_words ≤ length shares.old }
    requires k_lt_row_count { k < row_count }
    requires lower { Lower slice run }
    requires shares_fit { (i : ℕ) → get_or (row_at k shares.old) i 0 ≤ slice }
    ensures { RowSet shares.old k (lower_row slice run (row_at k shares.old))
        shares.new }
{
    let (_, from) = shares.split_at_mut(SLOTS * k);
    line::lower::lower(from.first_chunk_mut().unwrap(), slice, run);
}
