// The six calls, once for both ways to hold the planner: its few numbers, its lists and the words of the share table are worked on where
// they lie. Each call checks them itself, and a refusal changes nothing.
// They are lent one by one, as some calls are lent the shares for reading and others for writing.
#![tactic(auto)]

pub mod reason; // reason.rt: the first reason to refuse a call, by the numbers that are held
pub mod may; // may.rt: the first reason to refuse a call on any table
pub mod open; // open.rt: open
pub mod tasks; // tasks.rt: declare and withdraw
pub mod release; // release.rt: release
pub mod advance; // advance.rt: advance
pub mod holder; // holder.rt: holder

// What a call that is done answers: its value, and the count of segments.
#[derive(Clone, Copy, Debug, PartialEq, Eq)]
pub struct Done {
    pub value: u64,
    pub count: u64,
}
