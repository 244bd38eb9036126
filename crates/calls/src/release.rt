ghost use Rattle.std.specs.Prelude.{◌≡◌, []};
ghost use Rattle.rules.specs.Calls.{release};
ghost use Rattle.rules.specs.Held.{planner};
ghost use Rattle.calls.specs.Called.{leaves, called};

use crate::Done;
use crate::may::may_release;
use plan::NewJob;
use plan::replan::replan;
use rules::{LIST_WORDS, ROWS, Refusal, State};
use slots::task::{put_deadline, task_in};

// Release: the slot's task gets a job, due a period after the clock. Value: its deadline.
pub fn release(
    state: &mut State,
    lists: &mut [u64; LIST_WORDS],
    shares: &mut [u32],
    slot: u64,
) -> Result<Done, Refusal>
    ensures { leaves (planner state.new lists.new) shares.new [] result
        ≡ called (planner state.old lists.old) shares.old [] (release slot) }
{
    may_release(*state, lists, shares, slot)?;
    let at = slot as usize;
    let task = task_in(lists, at);
    let deadline = state.clock + task.period;
    let job = NewJob {
        slot: at,
        rate: task.rate,
        deadline,
    };
    let ends = lists.first_chunk_mut::<ROWS>().unwrap();
    let count = replan(*state, ends, shares, job);
    put_deadline(lists, at, deadline);
    *state = State {
        start: state.clock,
        count,
        ..*state
    };
    Ok(Done {
        value: deadline,
        count: 0,
    })
}
