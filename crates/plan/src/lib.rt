// What release and advance do to the slices: boundaries in lent words with their number, rows in the lent share table.
// The lent words have a fixed size, so a number beside them says how many are in use. Each routine says which slices
// are held afterwards, and that the words past the table are as they were.
#![tactic(auto)]

pub mod ends; // ends.rt: the boundaries alone
pub mod boundary; // boundary.rt: a boundary is added, or the first one dropped, with its row
pub mod give; // give.rt: the new job's shares
pub mod replan; // replan.rt: the three steps of a release

// A job that is released: its task's slot and rate, and its deadline.
#[derive(Clone, Copy)]
pub struct NewJob {
    pub slot: usize,
    pub rate: u64,
    pub deadline: u64,
}
