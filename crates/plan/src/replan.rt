ghost use Rattle.std.specs.Prelude.{◌≡◌, drop};
ghost use Rattle.rules.specs.Station.{share_words};
ghost use Rattle.rules.specs.Slices.{with_end};
ghost use Rattle.rules.specs.Release.{lowered, given};
ghost use Rattle.plan.specs.Planned.{Planned, slices_in};
ghost use Rattle.plan.specs.Asked.{Lowers, Replans};

use crate::NewJob;
use crate::boundary::with_boundary;
use crate::give::give;
use rules::{GRAINS, ROWS, State};
use table::row::row_lower;

// "1. Each share of slice 0 is lowered by what that task has run since the plan start".
fn lower_first(state: State, ends: &[u64; ROWS], shares: &mut [u32])
    requires { Lowers state ends.now shares.old }
    ensures planned { Planned
        (lowered state.start state.clock (slices_in ends.now state.count shares.old))
        ends.now state.count shares.new }
    ensures shares_unchanged { drop share_words shares.new ≡ drop share_words shares.old }
{
    if state.count == 0 {
        return;
    }
    let slice = GRAINS * (ends[0] - state.start);
    let run = GRAINS * (state.clock - state.start);
    row_lower(shares, 0, slice, run);
}

// The three steps of a release at the clock: slice 0 lowered, a boundary at the deadline, and the new job's shares.
// Hands back how many boundaries there are then.
pub fn replan(state: State, ends: &mut [u64; ROWS], shares: &mut [u32], job: NewJob) -> u64
    requires { Replans state ends.old shares.old job }
    ensures planned { Planned
        (given job.slot job.rate job.deadline state.clock
        (with_end job.deadline state.clock
        (lowered state.start state.clock
        (slices_in ends.old state.count shares.old))))
        ends.new result shares.new }
    ensures shares_unchanged { drop share_words shares.new ≡ drop share_words shares.old }
{
    lower_first(state, ends, shares);
    let count = state.count as usize;
    let count = with_boundary(shares, ends, count, job.deadline, state.clock);
    give(shares, ends, count, job, state.clock);
    count as u64
}
