ghost use Rattle.std.specs.Prelude.{◌≡◌, ◌+◌, ◌-◌, ◌*◌, ◌≤◌, ◌<◌, drop};
ghost use Rattle.rules.specs.Station.{grains, longest_period, slot_count, share_words};
ghost use Rattle.rules.specs.Release.{given};
ghost use Rattle.plan.specs.Planned.{Planned, slices_in};
ghost use Rattle.plan.specs.Asked.{PlanFrom};

use crate::NewJob;
use rules::ROWS;
use table::row::row_add;

// What a job of this rate gets in a slice from lo to end: rate times length.
fn gift(rate: u64, lo: u64, end: u64) -> u64
    requires rate_bound { rate ≤ grains 1 }
    requires lo_le_end { lo ≤ end }
    requires end_bound { end ≤ lo + longest_period }
    ensures value { result ≡ rate * (end - lo) }
    ensures upper_bound { result ≤ grains longest_period }
{
    rate * (end - lo)
}

// "The new job gets rate times length in each slice that ends at or before d", its deadline. The first slice begins at
// start. Ends rise, so the first that is after d ends the giving.
pub fn give(shares: &mut [u32], ends: &[u64; ROWS], count: usize, job: NewJob, start: u64)
    requires plan_from { PlanFrom start ends.now count shares.old }
    requires slot_lt_slot_count { job.slot < slot_count }
    requires rate_bound { job.rate ≤ grains 1 }
    ensures planned { Planned
        (given job.slot job.rate job.deadline start (slices_in ends.now count shares.old))
        ends.now count shares.new }
    ensures shares_unchanged { drop share_words shares.new ≡ drop share_words shares.old }
{
    let mut lo = start;
    for (k, &end) in ends[..count].iter().enumerate() {
        if job.deadline < end {
            return;
        }
        row_add(shares, k, job.slot, gift(job.rate, lo, end));
        lo = end;
    }
}
