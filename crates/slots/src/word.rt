ghost use Rattle.std.specs.Prelude.{◌≡◌, ◌-◌, ◌<◌, ◌^◌};
ghost use Rattle.std.specs.Int.Count.{count_trailing_zeros, ones};
ghost use Rattle.rules.specs.Station.{slot_count};

// The lowest free slot, or 64, as its promise has it: by trailing zeros of the complement.
pub fn lowest_free(used: u64) -> usize
    ensures { result ≡ count_trailing_zeros 64 (18446744073709551615 - used) }
{
    (!used).trailing_zeros() as usize
}

// How many slots are in use: by count of ones.
pub fn in_use(used: u64) -> u32
    ensures { result ≡ ones used }
{
    used.count_ones()
}

// A slot's bit in the word of slots in use.
pub fn bit_of(slot: usize) -> u64
    requires { slot < slot_count }
    ensures { result ≡ 2 ^ slot }
{
    1u64 << slot
}
