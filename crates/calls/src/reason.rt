// The first reason that refuses a call on a sound table, by the numbers that are held.
ghost use Rattle.std.specs.Prelude.{◌≡◌, ◌≤◌};
ghost use Rattle.rules.specs.Station.{grains, most_cores};
ghost use Rattle.rules.specs.Numbers.{verdict};
ghost use Rattle.rules.specs.Calls.{refused, open_refusals};
ghost use Rattle.calls.specs.Reasons.{declare_number, task_number, among, due_number, advance_number};

use rules::{
    GRAINS, LAST_TICK, LONGEST_PERIOD, MOST_CORES, ROWS, Refusal, SEGMENT_WORDS, SHARE_WORDS,
    SLOTS, State, Task,
};
use slots::task::rate_of;
use slots::word::in_use;

// Of an open, by the number of words lent and the cores; it asks for no table.
#[tactic(auto, unfolding(rules::specs::Calls::refused, rules::specs::Calls::open_refusals, rules::specs::Numbers::verdict, rules::specs::Numbers::number_of))]
pub fn open_reason(words: usize, cores: u64) -> Result<(), Refusal>
    ensures { verdict result ≡ refused (open_refusals words cores) }
{
    if words < SHARE_WORDS {
        return Err(Refusal::NotSound);
    }
    if cores < 1 || MOST_CORES < cores {
        return Err(Refusal::Cores);
    }
    Ok(())
}

// Of a declare. The load is the rates of all tasks together.
#[tactic(auto, unfolding(crate::specs::Reasons::declare_number, rules::specs::Numbers::verdict, rules::specs::Numbers::number_of))]
pub fn declare_reason(state: State, load: u64, period: u64, cost: u64) -> Result<(), Refusal>
    requires cores_le_most_cores { state.cores ≤ most_cores }
    requires load_bound { load ≤ grains most_cores }
    ensures { verdict result ≡ declare_number state.cores state.used load period cost }
{
    if period < 1 || LONGEST_PERIOD < period {
        return Err(Refusal::Period);
    }
    if cost == 0 || GRAINS * period < cost {
        return Err(Refusal::Cost);
    }
    if in_use(state.used) == SLOTS as u32 {
        return Err(Refusal::SlotsFull);
    }
    if GRAINS * state.cores < load + rate_of(period, cost) {
        return Err(Refusal::RatesFull);
    }
    Ok(())
}

// Of a call on a slot from 0 to 63, by its task: a withdraw's, and the first two of a release.
#[tactic(auto, unfolding(crate::specs::Reasons::task_number, rules::specs::Numbers::verdict, rules::specs::Numbers::number_of))]
pub fn task_reason(task: Task) -> Result<(), Refusal>
    ensures { verdict result ≡ task_number task.period task.deadline }
{
    if task.period == 0 {
        return Err(Refusal::Slot);
    }
    if 0 < task.deadline {
        return Err(Refusal::JobPending);
    }
    Ok(())
}

// Whether d is one of 64 boundaries.
fn is_among(ends: &[u64; ROWS], d: u64) -> bool
    ensures { result ≡ among d ends.now }
{
    ends.contains(&d)
}

// Of a release whose job is due at d.
#[tactic(auto, unfolding(crate::specs::Reasons::due_number, rules::specs::Numbers::verdict, rules::specs::Numbers::number_of))]
pub fn due_reason(d: u64, count: u64, ends: &[u64; ROWS]) -> Result<(), Refusal>
    ensures { verdict result ≡ due_number d count ends.now }
{
    if LAST_TICK < d {
        return Err(Refusal::BeyondLastTick);
    }
    if count == ROWS as u64 && !is_among(ends, d) {
        return Err(Refusal::RowsFull);
    }
    Ok(())
}

// Of an advance. The room is the number of words of the segment buffer.
#[tactic(auto, unfolding(crate::specs::Reasons::advance_number, rules::specs::Numbers::verdict, rules::specs::Numbers::number_of))]
pub fn advance_reason(clock: u64, tick: u64, room: usize) -> Result<(), Refusal>
    ensures { verdict result ≡ advance_number clock tick room }
{
    if tick < clock {
        return Err(Refusal::BeforeClock);
    }
    if LAST_TICK < tick {
        return Err(Refusal::BeyondLastTick);
    }
    if room < SEGMENT_WORDS {
        return Err(Refusal::SegmentsShort);
    }
    Ok(())
}
