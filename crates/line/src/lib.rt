// The line of a row: its shares laid end to end, in slot order. Each routine is one walk along it.
// What a walk asks of its numbers is one named fact (specs/Asked.antt); a struct of them would be taken apart at each step.
#![tactic(auto)]

pub mod place; // place.rt: a place on the line, where it is cut into one stretch for each core
pub mod cut; // cut.rt: the two parts of a cut
pub mod lower; // lower.rt: shares less what has run
