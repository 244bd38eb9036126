ghost use Rattle.std.specs.Prelude.{◌≡◌, ◌&&◌, ◌||◌, ◌≤◌, leb, ltb, eqb};
ghost use Rattle.rules.specs.Station.{grains, most_cores, slot_count};
ghost use Rattle.rules.specs.Held.{planner, is_sound_in};
ghost use Rattle.sound.specs.Due.{Planning, plan_test, scalars_test};

use crate::due::{DueFacts, due_facts};
use crate::slice::{ends_zero, slices_sound};
use rules::{GRAINS, LAST_TICK, LIST_WORDS, MOST_CORES, ROWS, SHARE_WORDS, SLOTS, State};
use slots::test::{Dues, tasks_sound};
use table::zero::rows_zero;

// "1 to 16 cores; clock in range; .. plan start is at most the clock"; and no more boundaries than rows.
#[tactic(auto, unfolding(crate::specs::Due::scalars_test, rules::specs::Sound::every))]
fn scalars(state: State) -> bool
    ensures { result ≡ scalars_test state.cores state.clock state.start state.count }
{
    1 <= state.cores
        && state.cores <= MOST_CORES
        && state.clock <= LAST_TICK
        && state.start <= state.clock
        && state.count <= ROWS as u64
}

// "rates sum to at most 1,000 times the cores; .. plan start is .. equal to [the clock] when nothing is pending": of all slots, what is
// owed at the plan start, and how many have no job.
fn load_sound(all: DueFacts, state: State) -> bool
    requires { state.cores ≤ most_cores }
    ensures { result ≡ leb all.owed (grains state.cores)
        && (ltb all.hits slot_count || eqb state.start state.clock) }
{
    all.owed <= GRAINS * state.cores && (all.hits < SLOTS as u64 || state.start == state.clock)
}

// The clauses about all slices, once cores and count are in range.
#[tactic(auto, unfolding(crate::specs::Due::plan_test, rules::specs::Sound::every))]
fn plan_sound(state: State, dues: &Dues, ends: &[u64; ROWS], shares: &[u32]) -> bool
    requires { Planning state.cores state.count shares.now }
    ensures { result ≡ plan_test state.cores state.clock state.start dues.now.due dues.now.rates
        state.count ends.now shares.now }
{
    let all = due_facts(dues, 0);
    if !load_sound(all, state) {
        return false;
    }
    let jobs = SLOTS as u64 - all.hits;
    let count = state.count as usize;
    let slices = slices_sound(shares, dues, ends, count, state.start);
    slices.ok && slices.hits == jobs && ends_zero(ends, count) && rows_zero(shares, count)
}

// A sound table, as it is held and lent: the check of every call.
pub fn sound(state: State, lists: &[u64; LIST_WORDS], shares: &[u32]) -> bool
    ensures { result ≡ is_sound_in (planner state lists.now) shares.now }
{
    if shares.len() < SHARE_WORDS || !scalars(state) {
        return false;
    }
    let Some(dues) = tasks_sound(state, lists) else {
        return false;
    };
    let ends = lists.first_chunk::<ROWS>().unwrap();
    plan_sound(state, &dues, ends, shares)
}
