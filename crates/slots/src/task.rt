ghost use Rattle.std.specs.Prelude.{◌≡◌, cond, ◌≤◌, ◌<◌, eqb, get_or, set};
ghost use Rattle.rules.specs.Station.{slot_count, longest_period, grains, rate_of, rates, free, with_deadline};
ghost use Rattle.rules.specs.Advance.{ended};
ghost use Rattle.rules.specs.Held.{tasks_of};
ghost use Rattle.slots.specs.Lists.{Tasked};

use rules::{COST, DEADLINE, LIST_WORDS, PERIOD, RATE, SLOTS, TASKS_FROM, Task, WORDS_PER_TASK};

// "Its rate is cost divided by period, rounded up".
pub fn rate_of(period: u64, cost: u64) -> u64
    requires le_period { 1 ≤ period }
    requires period_le_longest_period { period ≤ longest_period }
    requires cost_bound { cost ≤ grains period }
    ensures value { result ≡ rate_of period cost }
    ensures upper_bound { result ≤ 1000 }
{
    cost.div_ceil(period)
}

// The task in a slot.
pub fn task_in(lists: &[u64; LIST_WORDS], slot: usize) -> Task
    requires { slot < slot_count }
    ensures { result ≡ get_or (tasks_of lists.now) slot free }
{
    let at = TASKS_FROM + WORDS_PER_TASK * slot;
    Task {
        period: lists[at + PERIOD],
        cost: lists[at + COST],
        rate: lists[at + RATE],
        deadline: lists[at + DEADLINE],
    }
}

// A task is stored in a slot. No other word is touched.
pub fn put_task(lists: &mut [u64; LIST_WORDS], slot: usize, task: Task)
    requires { slot < slot_count }
    ensures { Tasked lists.old (set (tasks_of lists.old) slot task) lists.new }
{
    let at = TASKS_FROM + WORDS_PER_TASK * slot;
    lists[at + PERIOD] = task.period;
    lists[at + COST] = task.cost;
    lists[at + RATE] = task.rate;
    lists[at + DEADLINE] = task.deadline;
}

// A slot's task gets another deadline.
pub fn put_deadline(lists: &mut [u64; LIST_WORDS], slot: usize, deadline: u64)
    requires { slot < slot_count }
    ensures { Tasked lists.old
        (set (tasks_of lists.old) slot
        (with_deadline (get_or (tasks_of lists.old) slot free) deadline))
        lists.new }
{
    lists[TASKS_FROM + WORDS_PER_TASK * slot + DEADLINE] = deadline;
}

// The rates of all tasks together.
pub fn load(lists: &[u64; LIST_WORDS]) -> u64
    requires { rates (tasks_of lists.now) ≤ 18446744073709551615 }
    ensures { result ≡ rates (tasks_of lists.now) }
{
    // No `sum()`: that all rates together fit is known of the whole, and the chain left its bound open.
    let mut total = 0;
    for slot in 0..SLOTS {
        total += task_in(lists, slot).rate;
    }
    total
}

fn kept(deadline: u64, d: u64) -> u64
    ensures { result ≡ cond (eqb deadline d) 0 deadline }
{
    if deadline == d { 0 } else { deadline }
}

// "At a boundary the jobs with that deadline end".
pub fn end_jobs(lists: &mut [u64; LIST_WORDS], d: u64)
    ensures { Tasked lists.old (ended d (tasks_of lists.old)) lists.new }
{
    for slot in 0..SLOTS {
        let task = task_in(lists, slot);
        put_deadline(lists, slot, kept(task.deadline, d));
    }
}
