// The wrap of slice 0, read off its row: the shares are laid along one line, slot by slot, and each routine is one walk
// along it. Slot, place and share change with each step, so they are passed one by one. The parameter `slice` is the T of document 01: how many grains slice 0 has, from the plan start on.
#![tactic(auto)]

pub mod segments; // segments.rt: the segments that a window on the wrap shows
pub mod holder; // holder.rt: who holds a core in a grain
pub mod show; // show.rt: the segments from the clock to a tick
pub mod look; // look.rt: who holds a core now
