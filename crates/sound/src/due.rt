ghost use Rattle.std.specs.Prelude.{◌≡◌, ◌≤◌};
ghost use Rattle.rules.specs.Station.{slot_count, sum};
ghost use Rattle.rows.specs.Row.{owed_in, hits_in};

use rows::look::{hit, rate_due};
use slots::test::Dues;

// What an end asks of the deadlines: the rates of the jobs due at it or after it, added up, and how many are due at it. These are two of the
// sums of a row's pass, here with no row and in 64 bits, as the rates may still be any.
#[derive(Clone, Copy)]
pub struct DueFacts {
    pub owed: u64,
    pub hits: u64,
}

pub fn due_facts(dues: &Dues, end: u32) -> DueFacts
    ensures owed_value { result.owed ≡ owed_in end dues.now.due dues.now.rates }
    ensures hits_value { result.hits ≡ hits_in end dues.now.due }
    ensures owed_bound { result.owed ≤ 274877906880 }
    ensures all_owed { end ≡ 0 → result.owed ≡ sum dues.now.rates }
    ensures hits_le_slot_count { result.hits ≤ slot_count }
{
    let mut owed: u64 = 0;
    let mut hits: u32 = 0;
    for (&due, &rate) in dues.due.iter().zip(&dues.rates) {
        owed += u64::from(rate_due(rate, due, end));
        hits += hit(due, end);
    }
    DueFacts {
        owed,
        hits: u64::from(hits),
    }
}
