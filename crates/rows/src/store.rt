ghost use Rattle.std.specs.Prelude.{◌≡◌, ◌+◌, ◌*◌, ◌<◌, ◌≤◌, ◌++◌, length, take, drop, slice_index, slice_set};
ghost use Rattle.rules.specs.Station.{slot_count, zeros};

use rules::SLOTS;

// Two rows that stand together.
pub const TWO_ROWS: usize = 2 * SLOTS;

// A row becomes zero.
#[tactic(auto, unfolding(rules::specs::Station::zeros))]
pub fn clear(row: &mut [u32; SLOTS])
    ensures { row.new ≡ zeros }
{
    row.fill(0);
}

// Of two rows that stand together, the second is copied over the first. By place and over a slice: so the compiler makes one move of all rows
// that move up, and of `copy_from_slice` a call for each row, which was tried and is slower.
pub fn copy_up(two: &mut [u32])
    requires { length two.old ≡ 2 * slot_count }
    ensures { two.new ≡ drop slot_count two.old ++ drop slot_count two.old }
{
    for i in 0..SLOTS {
        two[i] = two[SLOTS + i];
    }
}

// Of two rows that stand together, the first is copied over the second. By place: `copy_from_slice` is a call of `memcpy` for each row,
// and the station's archive asks for no such name.
pub fn copy_down(two: &mut [u32; TWO_ROWS])
    ensures { two.new ≡ take slot_count two.old ++ take slot_count two.old }
{
    for i in 0..SLOTS {
        two[SLOTS + i] = two[i];
    }
}

// One slot gets more grains.
pub fn add(row: &mut [u32; SLOTS], slot: usize, grains: u64)
    requires slot_lt_slot_count { slot < slot_count }
    requires grains_bound { slice_index row.old slot + grains ≤ 4294967295 }
    ensures { row.new ≡ slice_set row.old slot (slice_index row.old slot + grains) }
{
    row[slot] = (u64::from(row[slot]) + grains) as u32;
}
