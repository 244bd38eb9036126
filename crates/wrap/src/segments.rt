ghost use Rattle.std.specs.Prelude.{◌≡◌, [], ◌∷◌, ◌+◌, ◌*◌, ◌≤◌, length};
ghost use Rattle.rules.specs.Station.{grains, longest_period, most_cores, sum};
ghost use Rattle.rules.specs.Wrap.{on_core, on_next, kept, clip};
ghost use Rattle.rules.specs.Words.{written};
ghost use Rattle.rules.specs.Calls.{segment_words};
ghost use Rattle.line.specs.Line.{on_line, Step};
ghost use Rattle.wrap.specs.Asked.{Laid, Shown, Room};
ghost use Rattle.wrap.specs.Shown.{Looks, segment_of, window_of, slot_shown, shown_in, written_from, Wrote};

use line::place::{Place, beyond};
use rules::{SLOTS, WORDS_PER_SEGMENT};

// A segment: the core, the slot that holds it, the first grain, and the grain after the last.
#[derive(Clone, Copy)]
pub struct Segment {
    pub core: u64,
    pub slot: u64,
    pub first: u64,
    pub after: u64,
}

// A window on the wrap: the grain of the plan start, and from where to where, in grains after it. Any numbers may stand in it; that it lies on
// a slice is asked by name (`Looks`).
#[derive(Clone, Copy)]
pub struct Window {
    pub base: u64,
    pub from: u64,
    pub to: u64,
}

// A slot's segment on the core where its stretch of the line begins.
fn on_core(slot: usize, place: Place, share: u64, slice: u64) -> Segment
    requires { Step slice place share }
    ensures value { segment_of result ≡ on_core slice slot (on_line slice place) share }
    ensures first_le_slice { result.first ≤ slice }
{
    Segment {
        core: place.core,
        slot: slot as u64,
        first: place.at,
        after: (place.at + share).min(slice),
    }
}

// A slot's segment on the next core, where its stretch goes past the end of a core's.
fn on_next(slot: usize, place: Place, share: u64, slice: u64) -> Segment
    requires { Step slice place share }
    ensures value { segment_of result ≡ on_next slice slot (on_line slice place) share }
    ensures first_le_slice { result.first ≤ slice }
{
    Segment {
        core: place.core + 1,
        slot: slot as u64,
        first: 0,
        after: (place.at + share).saturating_sub(slice),
    }
}

// A segment as far as it lies in the window, counted from grain 0.
#[tactic(auto, unfolding(crate::specs::Shown::segment_of, crate::specs::Shown::window_of, rules::specs::Wrap::kept))]
fn within(segment: Segment, window: Window) -> Segment
    requires looks { Looks window }
    requires first_bound { segment.first ≤ grains longest_period }
    ensures { segment_of result ≡ kept (window_of window) (segment_of segment) }
{
    Segment {
        first: window.base + segment.first.max(window.from),
        after: window.base + segment.after.min(window.to),
        ..segment
    }
}

// Four words after the first `count` segments. Four stores: an array copied over them was tried, and each word is stored twice then.
fn write(segment: Segment, buffer: &mut [u64], count: usize)
    requires { Room buffer.old count }
    ensures { buffer.new ≡ written_from count (segment_of segment ∷ []) buffer.old }
{
    let at = WORDS_PER_SEGMENT * count;
    buffer[at] = segment.core;
    buffer[at + 1] = segment.slot;
    buffer[at + 2] = segment.first;
    buffer[at + 3] = segment.after;
}

// What the window shows of a segment is written after the first `count`. "Empty segments don't exist." Hands back the
// new count.
fn put(segment: Segment, window: Window, buffer: &mut [u64], count: usize) -> usize
    requires looks { Looks window }
    requires first_bound { segment.first ≤ grains longest_period }
    requires room { Room buffer.old count }
    ensures { Wrote count (clip (window_of window) (segment_of segment)) buffer.old result
        buffer.new }
{
    let seen = within(segment, window);
    if seen.first < seen.after {
        write(seen, buffer, count);
        count + 1
    } else {
        count
    }
}

// What the window shows of one slot, whose share begins at the place.
fn lay(
    slot: usize,
    place: Place,
    share: u64,
    slice: u64,
    window: Window,
    buffer: &mut [u64],
    count: usize,
) -> usize
    requires step { Step slice place share }
    requires looks { Looks window }
    requires room { Room buffer.old
        (count + length (slot_shown (window_of window) slice slot (on_line slice place) share)) }
    ensures { Wrote count (slot_shown (window_of window) slice slot (on_line slice place) share)
        buffer.old result buffer.new }
{
    let more = put(on_core(slot, place, share, slice), window, buffer, count);
    put(on_next(slot, place, share, slice), window, buffer, more)
}

// The segments that a window shows, written to the buffer in the order along the line. Hands back their count. The
// buffer is lent and may be longer than is asked, so what stands in it is told by a count beside it.
pub fn segments(row: &[u32; SLOTS], slice: u64, window: Window, buffer: &mut [u64]) -> usize
    requires laid { Laid slice row.now }
    requires shown { Shown slice window }
    requires segment_words_in_bounds { segment_words ≤ length buffer.old }
    requires row_bound { sum row.now ≤ most_cores * slice }
    ensures value { result ≡ length (shown_in window slice row.now) }
    ensures buffer_after { buffer.new ≡ written (shown_in window slice row.now) buffer.old }
{
    let mut place = Place { core: 0, at: 0 };
    let mut count = 0;
    for (slot, &share) in row.iter().enumerate() {
        let share = u64::from(share);
        count = lay(slot, place, share, slice, window, buffer, count);
        place = beyond(place, share, slice);
    }
    count
}
