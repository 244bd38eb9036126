ghost use Rattle.std.specs.Prelude.{◌≡◌, ◌+◌, ◌≤◌};
ghost use Rattle.rules.specs.Station.{slot_count, longest_period, grains};
ghost use Rattle.line.specs.Line.{on_line, run_before, Step, Along};

// A place on the line: the core in whose stretch it lies, and the grains into that stretch. Kept so, a step divides
// nothing.
#[derive(Clone, Copy, Debug, PartialEq, Eq)]
pub struct Place {
    pub core: u64,
    pub at: u64,
}

// The place one share further: the same for a share of nothing. A share is no longer than a stretch, so at most one
// stretch ends on the way.
pub fn beyond(place: Place, share: u64, slice: u64) -> Place
    requires { Step slice place share }
    ensures { Along slice (place.core + 1) (on_line slice place + share) result }
{
    if share == 0 {
        return place;
    }
    let to = place.at + share;
    if to < slice {
        Place { at: to, ..place }
    } else {
        Place {
            core: place.core + 1,
            at: to - slice,
        }
    }
}

// How many of the grains before a place lie in the first `run` grains of the slice.
pub fn run_before(place: Place, run: u64) -> u64
    requires core_le_slot_count { place.core ≤ slot_count }
    requires at_bound { place.at ≤ grains longest_period }
    requires run_bound { run ≤ grains longest_period }
    ensures { result ≡ run_before run place }
{
    place.core * run + place.at.min(run)
}
