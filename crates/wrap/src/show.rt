ghost use Rattle.std.specs.Prelude.{◌≡◌, ◌≤◌, length};
ghost use Rattle.rules.specs.Calls.{segment_words};
ghost use Rattle.rules.specs.Words.{written};
ghost use Rattle.wrap.specs.Front.{Front, shown_to};

use crate::segments::{Window, segments};
use rules::{GRAINS, SLOTS, State};

// The segments from the clock to a tick that slice 0 reaches, written to the buffer. Hands back their count.
pub fn show(state: State, shares: &[u32], end: u64, to: u64, buffer: &mut [u64]) -> u64
    requires front { Front state.start state.clock end shares.now }
    requires clock_le_to { state.clock ≤ to }
    requires to_le_end { to ≤ end }
    requires segment_words_in_bounds { segment_words ≤ length buffer.old }
    ensures value { result ≡ length (shown_to state.start state.clock end to shares.now) }
    ensures buffer_after { buffer.new ≡
        written (shown_to state.start state.clock end to shares.now) buffer.old }
{
    let window = Window {
        base: GRAINS * state.start,
        from: GRAINS * (state.clock - state.start),
        to: GRAINS * (to - state.start),
    };
    let slice = GRAINS * (end - state.start);
    let row = shares.first_chunk::<SLOTS>().unwrap();
    segments(row, slice, window, buffer) as u64
}
