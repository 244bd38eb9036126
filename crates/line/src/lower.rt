ghost use Rattle.std.specs.Prelude.{◌≡◌, ℕ, ◌≤◌, get_or};
ghost use Rattle.rules.specs.Release.{lower_row};
ghost use Rattle.line.specs.Asked.{Lower};

use crate::place::{Place, beyond, run_before};
use rules::SLOTS;

// Each share of slice 0, of `slice` grains, is lowered by what its task has run in the first `run`.
pub fn lower(row: &mut [u32; SLOTS], slice: u64, run: u64)
    requires lower { Lower slice run }
    requires shares_fit { (i : ℕ) → get_or row.old i 0 ≤ slice }
    ensures { row.new ≡ lower_row slice run row.old }
{
    let mut place = Place { core: 0, at: 0 };
    let mut was: u64 = 0;
    for share in row.iter_mut() {
        let grains = u64::from(*share);
        place = beyond(place, grains, slice);
        let to = run_before(place, run);
        *share = (grains - (to - was)) as u32;
        was = to;
    }
}
