ghost use Rattle.std.specs.Prelude.{◌≡◌, []};
ghost use Rattle.rules.specs.Calls.{declare, withdraw};
ghost use Rattle.rules.specs.Held.{planner};
ghost use Rattle.calls.specs.Called.{leaves, called};

use crate::Done;
use crate::may::{may_declare, may_withdraw};
use rules::{LIST_WORDS, Refusal, State, Task};
use slots::task::{put_task, rate_of};
use slots::word::{bit_of, lowest_free};

// Declare: the lowest free slot. Value: the slot.
pub fn declare(
    state: &mut State,
    lists: &mut [u64; LIST_WORDS],
    shares: &[u32],
    period: u64,
    cost: u64,
) -> Result<Done, Refusal>
    ensures { leaves (planner state.new lists.new) shares.now [] result
        ≡ called (planner state.old lists.old) shares.now [] (declare period cost) }
{
    may_declare(*state, lists, shares, period, cost)?;
    let slot = lowest_free(state.used);
    let task = Task {
        period,
        cost,
        rate: rate_of(period, cost),
        deadline: 0,
    };
    put_task(lists, slot, task);
    state.used += bit_of(slot);
    Ok(Done {
        value: slot as u64,
        count: 0,
    })
}

// Withdraw: the slot is free again and may be used again at once. Value 0.
pub fn withdraw(
    state: &mut State,
    lists: &mut [u64; LIST_WORDS],
    shares: &[u32],
    slot: u64,
) -> Result<Done, Refusal>
    ensures { leaves (planner state.new lists.new) shares.now [] result
        ≡ called (planner state.old lists.old) shares.now [] (withdraw slot) }
{
    may_withdraw(*state, lists, shares, slot)?;
    let at = slot as usize;
    put_task(lists, at, Task::default());
    state.used -= bit_of(at);
    Ok(Done { value: 0, count: 0 })
}
