ghost use Rattle.std.specs.Prelude.{◌≡◌, ℕ, ◌+◌, ◌*◌, ◌≤◌, ◌<◌, get_or};
ghost use Rattle.rules.specs.Station.{slot_count};
ghost use Rattle.rules.specs.Slices.{less, first_to, first_part};
ghost use Rattle.line.specs.Asked.{Cut};

use rules::SLOTS;

// How many of the first e grains on the line the first part of a cut gets. The line of a row is no longer than 64 words
// of 32 bits.
fn reach(e: u64, part: u64, span: u64) -> u64
    requires cut { Cut part span }
    requires end_bound { e ≤ slot_count * 4294967295 }
    ensures { result ≡ first_to part span e }
{
    e * part / span
}

// The same one share further, where the first part gets `was` of the first e grains: a share of nothing needs no
// division.
fn reached(was: u64, e: u64, share: u64, part: u64, span: u64) -> u64
    requires cut { Cut part span }
    requires share_bound { e + share ≤ slot_count * 4294967295 }
    requires was_reached { was ≡ first_to part span e }
    ensures { result ≡ first_to part span (e + share) }
{
    if share == 0 {
        was
    } else {
        reach(e + share, part, span)
    }
}

// A row becomes the row of the first part of its slice, which has `span` ticks and is cut after its first `part`.
pub fn cut_first(row: &mut [u32; SLOTS], part: u64, span: u64)
    requires { Cut part span }
    ensures { row.new ≡ first_part part span row.old }
{
    let mut e: u64 = 0;
    let mut was: u64 = 0;
    for share in row.iter_mut() {
        let grains = u64::from(*share);
        let to = reached(was, e, grains, part, span);
        e += grains;
        *share = (to - was) as u32;
        was = to;
    }
}

// The whole row becomes the rest of a cut: what the row of the first part leaves of each share.
pub fn cut_rest(first: &[u32; SLOTS], rest: &mut [u32; SLOTS])
    requires { (i : ℕ) → i < slot_count → get_or first.now i 0 ≤ get_or rest.old i 0 }
    ensures { rest.new ≡ less (λ i. get_or first.now i 0) 0 rest.old }
{
    // One place in both rows and no zip: the library does not say what a zip over `iter_mut` leaves.
    for (i, share) in rest.iter_mut().enumerate() {
        *share -= first[i];
    }
}
