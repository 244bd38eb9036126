// The first reason that refuses a call: first whether what is held and lent is a sound table, and then what it says.
ghost use Rattle.std.specs.Prelude.{◌≡◌, cond};
ghost use Rattle.rules.specs.Numbers.{verdict};
ghost use Rattle.rules.specs.Calls.{declare, withdraw, release, advance};
ghost use Rattle.rules.specs.Held.{planner, is_sound_in};
ghost use Rattle.calls.specs.Called.{number_for};

use crate::reason::{advance_reason, declare_reason, due_reason, task_reason};
use rules::{LAST_SLOT, LIST_WORDS, ROWS, Refusal, State};
use slots::task::{load, task_in};
use sound::whole::sound;

// Reason 1: what is held and lent is no sound table.
pub fn checked(state: State, lists: &[u64; LIST_WORDS], shares: &[u32]) -> Result<(), Refusal>
    ensures { result ≡ cond (is_sound_in (planner state lists.now) shares.now) (Ok tt) (Err Refusal.NotSound) }
{
    if sound(state, lists, shares) {
        Ok(())
    } else {
        Err(Refusal::NotSound)
    }
}

pub fn may_declare(
    state: State,
    lists: &[u64; LIST_WORDS],
    shares: &[u32],
    period: u64,
    cost: u64,
) -> Result<(), Refusal>
    ensures { verdict result ≡ number_for (planner state lists.now) shares.now (declare period cost) }
{
    checked(state, lists, shares)?;
    declare_reason(state, load(lists), period, cost)
}

pub fn may_withdraw(
    state: State,
    lists: &[u64; LIST_WORDS],
    shares: &[u32],
    slot: u64,
) -> Result<(), Refusal>
    ensures { verdict result ≡ number_for (planner state lists.now) shares.now (withdraw slot) }
{
    checked(state, lists, shares)?;
    if LAST_SLOT < slot {
        return Err(Refusal::Slot);
    }
    task_reason(task_in(lists, slot as usize))
}

// The reasons of a withdraw come first.
pub fn may_release(
    state: State,
    lists: &[u64; LIST_WORDS],
    shares: &[u32],
    slot: u64,
) -> Result<(), Refusal>
    ensures { verdict result ≡ number_for (planner state lists.now) shares.now (release slot) }
{
    may_withdraw(state, lists, shares, slot)?;
    let task = task_in(lists, slot as usize);
    let ends = lists.first_chunk::<ROWS>().unwrap();
    due_reason(state.clock + task.period, state.count, ends)
}

pub fn may_advance(
    state: State,
    lists: &[u64; LIST_WORDS],
    shares: &[u32],
    tick: u64,
    room: usize,
) -> Result<(), Refusal>
    ensures { verdict result ≡ number_for (planner state lists.now) shares.now (advance tick room) }
{
    checked(state, lists, shares)?;
    advance_reason(state.clock, tick, room)
}
