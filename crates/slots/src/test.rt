// Whether each task is sound by itself. Any numbers may come: a number is computed with once it is in range.
ghost use Rattle.std.specs.Prelude.{◌≡◌, true, ◌&&◌, ◌-◌, ◌*◌, ◌%◌, ◌≤◌, leb, ltb, eqb, cond};
ghost use Rattle.rules.specs.Station.{last_tick, longest_period, grains, in_use};
ghost use Rattle.rules.specs.Sound.{each_task, lawful_test, in_time_test};
ghost use Rattle.rules.specs.Held.{flag, used_of, tasks_of};
ghost use Rattle.slots.specs.Tests.{free_test, task_test, due_from, dues_of, rates_of};

use crate::task::task_in;
use rules::{GRAINS, LAST_TICK, LIST_WORDS, LONGEST_PERIOD, SLOTS, State, Task};

// "Its rate is cost divided by period, rounded up", by a product and no division: the allowance reaches the cost, and would not
// with a rate of one less.
fn rate_is(period: u64, cost: u64, rate: u64) -> bool
    requires period_le_longest_period { period ≤ longest_period }
    requires le_rate { 1 ≤ rate }
    requires rate_bound { rate ≤ grains 1 }
    ensures { result ≡ leb cost (rate * period) && ltb (rate * period - period) cost }
{
    let allowance = rate * period;
    cost <= allowance && allowance - period < cost
}

// "every slot in use has a lawful period, cost and rate". A lawful rate is "1 to 1,000", which bounds the cost too. What a yes bounds is
// said for the callers.
#[tactic(auto, using(crate::proofs::Rate::lawful_is))]
fn lawful(task: Task) -> bool
    ensures value { result ≡ in_use task && lawful_test task }
    ensures period_le_longest_period { result ≡ true → task.period ≤ longest_period }
    ensures rate_bound { result ≡ true → task.rate ≤ 1000 }
{
    1 <= task.period
        && task.period <= LONGEST_PERIOD
        && 1 <= task.rate
        && task.rate <= GRAINS
        && rate_is(task.period, task.cost, task.rate)
}

// "each pending job's deadline is in range, above the clock and at most plan start plus period"
#[tactic(auto, unfolding(rules::specs::Sound::in_time_test, rules::specs::Sound::every, rules::specs::Station::pending))]
fn in_time(task: Task, clock: u64, start: u64) -> bool
    requires start_le_last_tick { start ≤ last_tick }
    requires period_le_longest_period { task.period ≤ longest_period }
    ensures { result ≡ in_time_test clock start task }
{
    task.deadline == 0
        || (task.deadline <= LAST_TICK
            && clock < task.deadline
            && task.deadline <= start + task.period)
}

// "Slots not in use hold zeros." Four numbers in one, which is zero only where all are.
#[tactic(auto, using(crate::proofs::Tests::or_zero), unfolding(crate::specs::Tests::free_test, rules::specs::Sound::every))]
fn unused(task: Task) -> bool
    ensures { result ≡ free_test task }
{
    (task.period | task.cost | task.rate | task.deadline) == 0
}

// One slot: the lowest bit of what is left of the slots in use says whether it is, and its task is sound by itself. A sound task's rate
// is at most 1,000.
#[tactic(auto, using(crate::proofs::Bits::of_one_task))]
fn one_task(used: u64, task: Task, clock: u64, start: u64) -> bool
    requires { start ≤ last_tick }
    ensures value { result ≡ eqb (used % 2) (flag (in_use task)) && task_test clock start task }
    ensures rate_bound { result ≡ true → task.rate ≤ 1000 }
{
    if used % 2 == 0 {
        unused(task)
    } else {
        lawful(task) && in_time(task, clock, start)
    }
}

// A deadline in ticks after the plan start, or 0 where no job is pending: the low 32 bits, which a sound job's deadline fits.
#[tactic(auto, unfolding(crate::specs::Tests::due_from))]
fn due_of(deadline: u64, start: u64) -> u32
    ensures { result ≡ due_from start deadline }
{
    (deadline.saturating_sub(start) % 4294967296) as u32
}

// Deadlines in ticks after the plan start, or 0 where no job is pending, and rates, side by side: two arrays, as a row is looked at beside
// each, four slots at once.
#[derive(Clone, Copy)]
pub struct Dues {
    pub due: [u32; SLOTS],
    pub rates: [u32; SLOTS],
}

// All slots: the word of the slots in use, and each task by itself. The same pass writes the deadlines and the rates; it ends at the
// first slot that is not sound.
pub fn tasks_sound(state: State, lists: &[u64; LIST_WORDS]) -> Option<Dues>
    requires { state.start ≤ last_tick }
    ensures { result ≡ cond
        (eqb state.used (used_of (tasks_of lists.now))
        && each_task (task_test state.clock state.start) (tasks_of lists.now))
        (Some (record {
          due = dues_of state.start (tasks_of lists.now);
          rates = rates_of (tasks_of lists.now);
        }))
        None }
{
    let mut dues = Dues {
        due: [0; SLOTS],
        rates: [0; SLOTS],
    };
    let mut left = state.used;
    for slot in 0..SLOTS {
        let task = task_in(lists, slot);
        if !one_task(left, task, state.clock, state.start) {
            return None;
        }
        left /= 2;
        dues.due[slot] = due_of(task.deadline, state.start);
        dues.rates[slot] = task.rate as u32;
    }
    (left == 0).then_some(dues)
}
