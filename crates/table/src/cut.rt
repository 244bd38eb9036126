ghost use Rattle.std.specs.Prelude.{ℕ, ◌+◌, ◌≤◌, ◌<◌, length, get_or};
ghost use Rattle.rules.specs.Station.{row_count, share_words};
ghost use Rattle.rules.specs.Slices.{less, first_part, second_part};
ghost use Rattle.rules.specs.Words.{rows_of, row_at, Rowed, cut_rows};
ghost use Rattle.line.specs.Asked.{Cut};
ghost use Rattle.table.specs.Row.{RowSet};

use crate::shift::make_room;
use rules::SLOTS;

// Row k becomes the row of its slice's first part.
fn row_first(shares: &mut [u32], k: usize, part: u64, span: u64)
    requires share_words_in_bounds { share_words ≤ length shares.old }
    requires k_lt_row_count { k < row_count }
    requires cut { Cut part span }
    ensures { RowSet shares.old k (first_part part span (row_at k shares.old))
        shares.new }
{
    let (_, from) = shares.split_at_mut(SLOTS * k);
    line::cut::cut_first(from.first_chunk_mut().unwrap(), part, span);
}

// Row k, the first part of a cut, is taken from row k + 1, the whole row.
fn row_rest(shares: &mut [u32], k: usize)
    requires share_words_in_bounds { share_words ≤ length shares.old }
    requires k_bound { k + 1 < row_count }
    requires first_below_second { (i : ℕ) → get_or (row_at k shares.old) i 0 ≤ get_or (row_at (k + 1) shares.old) i 0 }
    ensures { RowSet shares.old (k + 1)
        (less (λ i. get_or (row_at k shares.old) i 0) 0 (row_at (k + 1) shares.old))
        shares.new }
{
    let (to, from) = shares.split_at_mut(SLOTS * (k + 1));
    line::cut::cut_rest(to.last_chunk().unwrap(), from.first_chunk_mut().unwrap());
}

// "that slice is cut in two": of n rows in use, row k, of `span` ticks, after its first `part`. Once there is room the
// row stands twice, so each part is made where it stays: the first by the line, the rest by taking the first away.
pub fn cut_row(shares: &mut [u32], k: usize, n: usize, part: u64, span: u64)
    requires share_words_in_bounds { share_words ≤ length shares.old }
    requires k_lt_n { k < n }
    requires n_lt_row_count { n < row_count }
    requires cut { Cut part span }
    ensures { Rowed shares.old
        (cut_rows k n (first_part part span (row_at k shares.old))
        (second_part part span (row_at k shares.old)) (rows_of row_count shares.old))
        shares.new }
{
    make_room(shares, k, n);
    row_first(shares, k, part, span);
    row_rest(shares, k);
}
