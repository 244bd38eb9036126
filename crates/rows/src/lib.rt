// Routines on one row of the share table, an array of 64 shares. No loop has a branch in it.
#![tactic(auto)]

pub mod zero; // zero.rt: words that are all zero
pub mod store; // store.rt: a row is cleared, copied, or one share is raised
pub mod look; // look.rt: what a sound table asks of a row
