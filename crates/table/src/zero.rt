ghost use Rattle.std.specs.Prelude.{◌≡◌, [], ◌*◌, ◌≤◌, eqb, length, take, drop};
ghost use Rattle.rules.specs.Station.{slot_count, row_count, share_words, sum};
ghost use Rattle.rules.specs.Words.{Rowed, rows_in};

use rules::{ROWS, SHARE_WORDS, SLOTS};

// Whether all rows from n on are zero: their words, in four parts.
pub fn rows_zero(shares: &[u32], n: usize) -> bool
    requires share_words_in_bounds { share_words ≤ length shares.now }
    requires n_le_row_count { n ≤ row_count }
    ensures { result ≡ eqb (sum (drop (slot_count * n) (take share_words shares.now))) 0 }
{
    let quarter = SLOTS / 4 * (ROWS - n);
    let a = SLOTS * n;
    let b = a + quarter;
    let c = b + quarter;
    let d = c + quarter;
    rows::zero::four_zero(
        &shares[a..b],
        &shares[b..c],
        &shares[c..d],
        &shares[d..SHARE_WORDS],
    )
}

// "all 4,096 words zero"
pub fn clear_table(shares: &mut [u32])
    requires { share_words ≤ length shares.old }
    ensures { Rowed shares.old (rows_in row_count []) shares.new }
{
    shares[..SHARE_WORDS].fill(0);
}
