ghost use Rattle.std.specs.Prelude.{◌≡◌, ◌≤◌, ◌<◌, take};
ghost use Rattle.rules.specs.Station.{row_count};
ghost use Rattle.plan.specs.Planned.{before, put_in, taken_out};

use rules::ROWS;

// How many of the first `count` boundaries are before d: the place of d among them, as they rise. Counted and not searched for: so it is
// promised for boundaries in any order.
#[tactic(auto, unfolding(crate::specs::Planned::before))]
pub fn place(ends: &[u64; ROWS], count: usize, d: u64) -> usize
    requires { count ≤ row_count }
    ensures value { result ≡ before d (take count ends.now) }
    ensures upper_bound { result ≤ count }
{
    ends[..count].iter().filter(|end| **end < d).count()
}

// d put in at place k: the boundaries from k on move one place on.
pub fn put_in(ends: &mut [u64; ROWS], k: usize, count: usize, d: u64)
    requires k_le_count { k ≤ count }
    requires count_lt_row_count { count < row_count }
    ensures { ends.new ≡ put_in k count d ends.old }
{
    ends.copy_within(k..count, k + 1);
    ends[k] = d;
}

// The first boundary taken out: the others move one place up, and the last becomes zero.
pub fn take_out(ends: &mut [u64; ROWS], count: usize)
    requires count_nonzero { 0 < count }
    requires count_le_row_count { count ≤ row_count }
    ensures { ends.new ≡ taken_out count ends.old }
{
    ends.copy_within(1..count, 0);
    ends[count - 1] = 0;
}
