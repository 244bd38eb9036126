// The slots: the word of those in use, the words of a task where they lie in the planner's lists, and whether each task is sound by itself.
// A slot is a number below 64: the place of its task's words and of its bit are worked out from it, so loops go over the numbers.
#![tactic(auto)]

pub mod word; // word.rt: the word of slots in use
pub mod task; // task.rt: the words of the tasks
pub mod test; // test.rt: the clauses of a sound table about each task
