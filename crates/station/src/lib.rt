// The planner for a station in C or Rust: six calls on areas of words that the station lends. Each answers a refusal's number, 0 where the
// call is done, and writes number, value and count into the result area.
#![tactic(auto)]

mod write; // write.rt: the numbers of a state area, and an answer into a result area

ghost use Rattle.std.specs.Prelude.{◌≡◌, [], length};
ghost use Rattle.rules.specs.Calls.{declare, withdraw, release, advance};
ghost use Rattle.station.specs.Station.{lent, stationed, opened_in, holder_in};
ghost use Rattle.station.specs.Frame.{Framed};

use crate::write::{
    LISTS_FROM, RESULT_WORDS, STATE_WORDS, numbers_of, state_in, tell, tell_holder,
};
use calls::Done;
use rules::{LIST_WORDS, Refusal, State};

// The frame of a call that changes the planner: the areas' lengths, the call on the numbers and on the lists where they lie, the numbers
// stored, the answer told. The call is taken by `&mut`, as only then a contract can say what it left of all that it borrowed.
fn on_area<F: FnMut(&mut State, &mut [u64; LIST_WORDS]) -> Result<Done, Refusal>>(
    state: &mut [u64],
    res: &mut [u64],
    call: &mut F,
) -> u64
    requires { F.IsAlwaysCallable call.old }
    ensures { Framed F.FnMut call.old call.new state.old res.old state.new res.new result }
{
    let Some(res) = res.first_chunk_mut::<RESULT_WORDS>() else {
        // Nothing at all is written.
        return Refusal::NotSound.number();
    };
    let Some(area) = state.first_chunk_mut::<STATE_WORDS>() else {
        return tell(res, Err(Refusal::NotSound));
    };
    let (numbers, lists) = area.split_first_chunk_mut::<LISTS_FROM>().unwrap();
    let lists = lists.as_mut_array::<LIST_WORDS>().unwrap();
    let mut held = state_in(numbers);
    let answer = call(&mut held, lists);
    *numbers = numbers_of(held);
    tell(res, answer)
}

// Open: does not ask what the state area holds. Value: cores.
#[unsafe(no_mangle)]
pub extern "C" fn killaruna_open(
    state: &mut [u64],
    shares: &mut [u32],
    cores: u64,
    res: &mut [u64],
) -> u64
    ensures { lent state.new shares.new [] res.new result
        ≡ opened_in state.old shares.old res.old cores }
{
    on_area(
        state,
        res,
        &mut |state, lists| calls::open::open(state, lists, shares, cores),
    )
}

// Declare. Value: the slot.
#[unsafe(no_mangle)]
pub extern "C" fn killaruna_declare(
    state: &mut [u64],
    shares: &[u32],
    period: u64,
    cost: u64,
    res: &mut [u64],
) -> u64
    ensures { lent state.new shares.now [] res.new result
        ≡ stationed state.old shares.now [] res.old (declare period cost) }
{
    on_area(
        state,
        res,
        &mut |state, lists| calls::tasks::declare(state, lists, shares, period, cost),
    )
}

// Withdraw. Value 0.
#[unsafe(no_mangle)]
pub extern "C" fn killaruna_withdraw(
    state: &mut [u64],
    shares: &[u32],
    slot: u64,
    res: &mut [u64],
) -> u64
    ensures { lent state.new shares.now [] res.new result
        ≡ stationed state.old shares.now [] res.old (withdraw slot) }
{
    on_area(
        state,
        res,
        &mut |state, lists| calls::tasks::withdraw(state, lists, shares, slot),
    )
}

// Release. Value: the deadline.
#[unsafe(no_mangle)]
pub extern "C" fn killaruna_release(
    state: &mut [u64],
    shares: &mut [u32],
    slot: u64,
    res: &mut [u64],
) -> u64
    ensures { lent state.new shares.new [] res.new result
        ≡ stationed state.old shares.old [] res.old (release slot) }
{
    on_area(
        state,
        res,
        &mut |state, lists| calls::release::release(state, lists, shares, slot),
    )
}

// Advance. Value: the tick reached, and the count of segments.
#[unsafe(no_mangle)]
pub extern "C" fn killaruna_advance(
    state: &mut [u64],
    shares: &mut [u32],
    tick: u64,
    segments: &mut [u64],
    res: &mut [u64],
) -> u64
    ensures { lent state.new shares.new segments.new res.new result
        ≡ stationed state.old shares.old segments.old res.old
        (advance tick (length segments.old)) }
{
    on_area(
        state,
        res,
        &mut |state, lists| calls::advance::advance(state, lists, shares, tick, segments),
    )
}

// Holder: number, slot (64: idle) and grain (0: without a limit). It is lent the state area to read alone, so the frame does not fit it.
#[unsafe(no_mangle)]
pub extern "C" fn killaruna_holder(state: &[u64], shares: &[u32], core: u64, res: &mut [u64]) -> u64
    ensures { lent state.now shares.now [] res.new result
        ≡ holder_in state.now shares.now res.old core }
{
    let Some(res) = res.first_chunk_mut::<RESULT_WORDS>() else {
        // Nothing is written here either.
        return Refusal::NotSound.number();
    };
    let Some(area) = state.first_chunk::<STATE_WORDS>() else {
        return tell(res, Err(Refusal::NotSound));
    };
    let (numbers, lists) = area.split_first_chunk::<LISTS_FROM>().unwrap();
    let lists = lists.as_array::<LIST_WORDS>().unwrap();
    let held = state_in(numbers);
    let holder = calls::holder::holder(held, lists, shares, core);
    tell_holder(res, holder)
}
