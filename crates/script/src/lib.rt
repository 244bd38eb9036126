// The drill's work: a script of lines, in whatever pieces it arrives, to the planner's answers as text.
//
// Planner and buffers are passed one by one: they lie where the caller has them, and a buffer may be longer than is asked.
#![tactic(auto)]

mod answer; // answer.rt: one line to its answer
mod stream; // stream.rt: pieces of a script to lines

pub use answer::answer_line;
use planner::Planner;
pub use stream::{feed, feed_lines, finish};

// The output of one line is at most so many bytes.
pub const ANSWER_BYTES: usize = 8192;

// The state after a line, and how many bytes were printed.
#[derive(Clone, Copy)]
pub struct Reply {
    pub planner: Planner,
    pub used: usize,
}

// The state after some bytes of a script: how much is kept of the line that has no newline yet, how many bytes were taken, and how
// many were printed.
#[derive(Clone, Copy)]
pub struct Fed {
    pub planner: Planner,
    pub len: usize,
    pub used: usize,
    pub written: usize,
}
