// Routines on the lent share table: 64 rows of 64 words. Each lends its rows on as parts, and says what it did by the
// table's rows, so that callers see no offset. Words past the table stay as they were.
// The shares are a slice of some least length and no array, as a station may lend more words than the table has. A row is named by its
// number, below 64: its words begin at a product of it, so a type for such numbers would be taken apart at each use.
// Each routine that changes a row cuts the table where the row begins: a function that hands row k out was tried, and gets no proof of the
// table afterwards.
#![tactic(auto)]

pub mod row; // row.rt: one row of the table
pub mod shift; // shift.rt: rows in use move up or down by one
pub mod cut; // cut.rt: a slice is cut in two
pub mod zero; // zero.rt: rows of zeros
