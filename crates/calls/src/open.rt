ghost use Rattle.std.specs.Prelude.{◌≡◌, []};
ghost use Rattle.rules.specs.Held.{planner};
ghost use Rattle.calls.specs.Called.{leaves, opening};

use crate::Done;
use crate::reason::open_reason;
use rules::{LIST_WORDS, Refusal, State};
use table::zero::clear_table;

// Open: "a fresh table, clock 0, all 4,096 words zero". It asks nothing of the state and the lists. Value: the cores.
pub fn open(
    state: &mut State,
    lists: &mut [u64; LIST_WORDS],
    shares: &mut [u32],
    cores: u64,
) -> Result<Done, Refusal>
    ensures { leaves (planner state.new lists.new) shares.new [] result
        ≡ opening (planner state.old lists.old) shares.old cores }
{
    open_reason(shares.len(), cores)?;
    clear_table(shares);
    lists.fill(0);
    *state = State {
        cores,
        ..State::default()
    };
    Ok(Done {
        value: cores,
        count: 0,
    })
}
