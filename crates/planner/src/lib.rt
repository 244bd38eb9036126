// The planner as a struct by value: its methods take `self` and hand back the next planner with the answer. Each makes its call on the
// copy that it was given; the calls themselves are those of `calls`. A frame that took the call as a closure would be no shorter than the
// two statements of a method.
#![tactic(auto)]

ghost use Rattle.std.specs.Prelude.{◌≡◌, [], length};
ghost use Rattle.rules.specs.Calls.{declare, withdraw, release, advance};
ghost use Rattle.wrap.specs.Holding.{told_by};
ghost use Rattle.calls.specs.Called.{called, opening, blank_planner};
ghost use Rattle.calls.specs.Holding.{told};
ghost use Rattle.planner.specs.Struct.{in_struct, leaves_by};

use calls::Done;
use rules::{LIST_WORDS, Refusal, State};
use wrap::look::Holder;

// "cores, clock, plan start, slots in use as one 64-bit word", the number of boundaries; and the words of 64 boundaries and 64 tasks.
#[derive(Clone, Copy)]
pub struct Planner {
    pub state: State,
    pub lists: [u64; LIST_WORDS],
}

// The next planner, with the answer.
#[derive(Clone, Copy)]
pub struct Next {
    pub planner: Planner,
    pub answer: Result<Done, Refusal>,
}

impl Planner {
    // The planner before any open: it has no core, so no call but open takes it.
    pub fn blank() -> Planner
        ensures { in_struct result ≡ blank_planner }
    {
        Planner {
            state: State::default(),
            lists: [0; LIST_WORDS],
        }
    }

    // Open: "a fresh table, clock 0, all 4,096 words zero". Value: the cores.
    pub fn open(mut self, shares: &mut [u32], cores: u64) -> Next
        ensures { leaves_by result shares.new [] ≡ opening (in_struct self) shares.old cores }
    {
        let answer = calls::open::open(&mut self.state, &mut self.lists, shares, cores);
        Next {
            planner: self,
            answer,
        }
    }

    // Declare: the lowest free slot. Value: the slot.
    pub fn declare(mut self, shares: &[u32], period: u64, cost: u64) -> Next
        ensures { leaves_by result shares.now []
            ≡ called (in_struct self) shares.now [] (declare period cost) }
    {
        let answer = calls::tasks::declare(&mut self.state, &mut self.lists, shares, period, cost);
        Next {
            planner: self,
            answer,
        }
    }

    // Withdraw: the slot is free again and may be used again at once. Value 0.
    pub fn withdraw(mut self, shares: &[u32], slot: u64) -> Next
        ensures { leaves_by result shares.now []
            ≡ called (in_struct self) shares.now [] (withdraw slot) }
    {
        let answer = calls::tasks::withdraw(&mut self.state, &mut self.lists, shares, slot);
        Next {
            planner: self,
            answer,
        }
    }

    // Release: the slot's task gets a job, due a period after the clock. Value: its deadline.
    pub fn release(mut self, shares: &mut [u32], slot: u64) -> Next
        ensures { leaves_by result shares.new []
            ≡ called (in_struct self) shares.old [] (release slot) }
    {
        let answer = calls::release::release(&mut self.state, &mut self.lists, shares, slot);
        Next {
            planner: self,
            answer,
        }
    }

    // Advance: to a tick, or to the first boundary, with the segments on the way. Value: the tick reached, and the count of segments.
    pub fn advance(mut self, shares: &mut [u32], tick: u64, segments: &mut [u64]) -> Next
        ensures { leaves_by result shares.new segments.new
            ≡ called (in_struct self) shares.old segments.old
            (advance tick (length segments.old)) }
    {
        let answer = calls::advance::advance(
            &mut self.state,
            &mut self.lists,
            shares,
            tick,
            segments,
        );
        Next {
            planner: self,
            answer,
        }
    }

    // Holder: the slot that holds a core now, with the grain at which its segment ends; changes nothing.
    pub fn holder(self, shares: &[u32], core: u64) -> Result<Holder, Refusal>
        ensures { told_by result ≡ told (in_struct self) shares.now core }
    {
        calls::holder::holder(self.state, &self.lists, shares, core)
    }
}
