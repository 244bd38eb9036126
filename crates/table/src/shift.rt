ghost use Rattle.std.specs.Prelude.{◌+◌, ◌≤◌, ◌<◌, length};
ghost use Rattle.rules.specs.Station.{row_count, share_words};
ghost use Rattle.rules.specs.Words.{rows_of, row_at, Rowed, moved_up, moved_down};
ghost use Rattle.table.specs.Row.{RowSet};

use crate::row::row_clear;
use rules::SLOTS;

// Rows move one at a time, each pair of rows lent to the routine that copies one over the other. `copy_within` over all of them was tried,
// and is no faster (docs/DECISIONS.md).

// Row k + 1 is copied over row k.
fn row_up(shares: &mut [u32], k: usize)
    requires share_words_in_bounds { share_words ≤ length shares.old }
    requires k_bound { k + 1 < row_count }
    ensures { RowSet shares.old k (row_at (k + 1) shares.old) shares.new }
{
    let a = SLOTS * k;
    let b = a + 2 * SLOTS;
    rows::store::copy_up(&mut shares[a..b]);
}

// Row k is copied over row k + 1.
fn row_down(shares: &mut [u32], k: usize)
    requires share_words_in_bounds { share_words ≤ length shares.old }
    requires k_bound { k + 1 < row_count }
    ensures { RowSet shares.old (k + 1) (row_at k shares.old) shares.new }
{
    let (_, from) = shares.split_at_mut(SLOTS * k);
    rows::store::copy_down(from.first_chunk_mut().unwrap());
}

// "row 0 is dropped, the rows move up, the last row becomes zero": of n rows in use. The rows after them are zero and
// need no move.
pub fn drop_row(shares: &mut [u32], n: usize)
    requires share_words_in_bounds { share_words ≤ length shares.old }
    requires n_nonzero { 0 < n }
    requires n_le_row_count { n ≤ row_count }
    ensures { Rowed shares.old (moved_up n (rows_of row_count shares.old))
        shares.new }
{
    let last = n - 1;
    for k in 0..last {
        row_up(shares, k);
    }
    row_clear(shares, last);
}

// Room for one more row after row k: of n rows in use, those from k on move down by one, the last of them first. Row k
// stands twice then.
pub fn make_room(shares: &mut [u32], k: usize, n: usize)
    requires share_words_in_bounds { share_words ≤ length shares.old }
    requires k_lt_n { k < n }
    requires n_lt_row_count { n < row_count }
    ensures { Rowed shares.old (moved_down k n (rows_of row_count shares.old))
        shares.new }
{
    for j in (k..n).rev() {
        row_down(shares, j);
    }
}
