ghost use Rattle.std.specs.Prelude.{◌≡◌};
ghost use Rattle.rules.specs.Held.{planner};
ghost use Rattle.wrap.specs.Holding.{told_by};
ghost use Rattle.calls.specs.Holding.{told};

use crate::may::checked;
use rules::{LIST_WORDS, Refusal, State};
use wrap::look::{Holder, holder_in};

// Holder: the slot that holds a core now, with the grain at which its segment ends; changes nothing.
pub fn holder(
    state: State,
    lists: &[u64; LIST_WORDS],
    shares: &[u32],
    core: u64,
) -> Result<Holder, Refusal>
    ensures { told_by result ≡ told (planner state lists.now) shares.now core }
{
    checked(state, lists, shares)?;
    holder_in(state, lists[0], shares, core)
}
