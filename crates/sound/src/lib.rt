// Whether a table is sound: each clause of document 01's paragraph, for any numbers, lists and words.
// The clauses that speak of tasks are tried first; what they bound makes the rest safe to compute.
#![tactic(auto)]

pub mod due; // due.rt: what the deadlines and rates say at an end
pub mod slice; // slice.rt: the clauses about each slice
pub mod whole; // whole.rt: all clauses
