ghost use Rattle.std.specs.Prelude.{◌≡◌, ℕ, ◌<◌};
ghost use Rattle.rules.specs.Station.{most_cores};
ghost use Rattle.rules.specs.Wrap.{wrap};
ghost use Rattle.rules.specs.Advance.{Holding, held_in};
ghost use Rattle.wrap.specs.Asked.{Laid};
ghost use Rattle.wrap.specs.Found.{holding_of};

use rules::SLOTS;

// A slot that holds a core, with the grain after the last of its segment, in grains after the plan start.
#[derive(Clone, Copy)]
pub struct Held {
    pub slot: u64,
    pub after: u64,
}

// Who holds a core, `grain` grains after the plan start: the first slot whose share ends past that place on the line,
// as far as its share or the core's stretch goes.
pub fn holder_at(row: &[u32; SLOTS], slice: u64, core: u64, grain: u64) -> Option<Held>
    requires laid { Laid slice row.now }
    requires grain_lt_slice { grain < slice }
    requires core_lt_most_cores { core < most_cores }
    ensures { (base : ℕ) (none : Holding) →
        holding_of base none result ≡ held_in base core grain none (wrap slice 0 0 row.now) }
{
    let begin = core * slice;
    let place = begin + grain;
    let mut end: u64 = 0;
    for (slot, &share) in row.iter().enumerate() {
        end += u64::from(share);
        if place < end {
            return Some(Held {
                slot: slot as u64,
                after: (end - begin).min(slice),
            });
        }
    }
    None
}
