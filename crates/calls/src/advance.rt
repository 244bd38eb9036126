ghost use Rattle.std.specs.Prelude.{◌≡◌, ◌++◌, ◌<◌, length, drop};
ghost use Rattle.rules.specs.Station.{share_words};
ghost use Rattle.rules.specs.Calls.{accepted, advance};
ghost use Rattle.rules.specs.Words.{words_of};
ghost use Rattle.rules.specs.Held.{planner, table_of, planner_of};
ghost use Rattle.calls.specs.Called.{Agrees, leaves, held_as, called};
ghost use Rattle.calls.specs.Advancing.{Proceeds, crossed};

use crate::Done;
use crate::may::may_advance;
use plan::boundary::drop_boundary;
use rules::{LIST_WORDS, ROWS, Refusal, State};
use slots::task::end_jobs;
use wrap::show::show;

// "At a boundary the jobs with that deadline end, row 0 is dropped .. and the plan start is the boundary".
fn cross(state: &mut State, lists: &mut [u64; LIST_WORDS], shares: &mut [u32])
    requires agrees { Agrees (planner state.old lists.old) shares.old }
    requires count_nonzero { 0 < state.old.count }
    ensures lists_after { planner state.new lists.new
        ≡ planner_of (crossed (planner state.old lists.old) shares.old) }
    ensures shares_after { shares.new
        ≡ words_of (crossed (planner state.old lists.old) shares.old)
        ++ drop share_words shares.old }
{
    let end = lists[0];
    let ends = lists.first_chunk_mut::<ROWS>().unwrap();
    drop_boundary(shares, ends, state.count as usize);
    end_jobs(lists, end);
    *state = State {
        clock: end,
        start: end,
        count: state.count - 1,
        ..*state
    };
}

// An advance where a job is pending: to the tick, or to the first boundary.
fn proceed(
    state: &mut State,
    lists: &mut [u64; LIST_WORDS],
    shares: &mut [u32],
    tick: u64,
    segments: &mut [u64],
) -> Done
    requires { Proceeds (planner state.old lists.old) shares.old tick segments.old }
    ensures { leaves (planner state.new lists.new) shares.new segments.new (Ok result)
        ≡ held_as shares.old segments.old
        (accepted (table_of (planner state.old lists.old) shares.old)
        (advance tick (length segments.old))) }
{
    let end = lists[0];
    let to = tick.min(end);
    let count = show(*state, shares, end, to, segments);
    let done = Done { value: to, count };
    if end <= tick {
        cross(state, lists, shares);
        return done;
    }
    state.clock = tick;
    done
}

// Advance: to a tick, or to the first boundary, with the segments on the way. "With no boundary it moves to a, and the plan start with it."
pub fn advance(
    state: &mut State,
    lists: &mut [u64; LIST_WORDS],
    shares: &mut [u32],
    tick: u64,
    segments: &mut [u64],
) -> Result<Done, Refusal>
    ensures { leaves (planner state.new lists.new) shares.new segments.new result
        ≡ called (planner state.old lists.old) shares.old segments.old
        (advance tick (length segments.old)) }
{
    may_advance(*state, lists, shares, tick, segments.len())?;
    let idle = state.count == 0;
    if idle {
        *state = State {
            clock: tick,
            start: tick,
            ..*state
        };
        return Ok(Done {
            value: tick,
            count: 0,
        });
    }
    Ok(proceed(state, lists, shares, tick, segments))
}
