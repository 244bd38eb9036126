ghost use Rattle.std.specs.Prelude.{◌≡◌, ◌+◌, length, nat_eq};
ghost use Rattle.rules.specs.Station.{sum};

// Two words in one, which is zero only where both are: a test for zeros that needs no wider sum.
fn joined(a: u32, b: u32) -> u32
    ensures parts_zero { result ≡ 0 → a + b ≡ 0 }
    ensures zero { a + b ≡ 0 → result ≡ 0 }
{
    a | b
}

// Four words in one.
fn joined_four(a: u32, b: u32, c: u32, d: u32) -> u32
    ensures parts_zero { result ≡ 0 → a + b + (c + d) ≡ 0 }
    ensures zero { a + b + (c + d) ≡ 0 → result ≡ 0 }
{
    joined(joined(a, b), joined(c, d))
}

// Whether all words of four parts of one length are zero. They are joined and not compared, so that the loop has no
// early end, and taken from four places, so that it has fewer turns.
pub fn four_zero(a: &[u32], b: &[u32], c: &[u32], d: &[u32]) -> bool
    requires b_len { length b.now ≡ length a.now }
    requires c_len { length c.now ≡ length a.now }
    requires d_len { length d.now ≡ length a.now }
    ensures { result ≡ nat_eq
        (sum a.now + sum b.now + (sum c.now + sum d.now)) 0 }
{
    let mut seen: u32 = 0;
    // One place in all four parts and no zip: the library has no law of a zip of four.
    for (i, &word) in a.iter().enumerate() {
        seen = joined(seen, joined_four(word, b[i], c[i], d[i]));
    }
    seen == 0
}
