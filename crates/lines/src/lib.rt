// A stream of bytes cut into lines, however it arrives in pieces. Of a line its first 64 bytes are stored.
#![tactic(auto)]

ghost use Rattle.std.specs.Prelude.{◌≡◌, ◌+◌, ◌≤◌, min, suc, length};
ghost use Rattle.lines.specs.Lines.{line_bytes, line_end, Fills};

// "A line over 64 bytes is malformed", so no more of it is stored.
pub const LINE_BYTES: usize = 64;

// The byte that ends a line.
const NEWLINE: u8 = 10;

// What is kept of a line, after a piece was taken into it: its length, up to 65; how many bytes of the piece went with it; and
// whether a newline ended it.
#[derive(Clone, Copy, Debug, PartialEq, Eq)]
pub struct Filled {
    pub len: usize,
    pub used: usize,
    // The other two are told of each piece, so this is no Option over them.
    pub ended: bool,
}

// How many bytes of a piece stand before its first newline, or in all of it.
fn line_end(piece: &[u8]) -> usize
    ensures value { result ≡ line_end piece.now }
    ensures upper_bound { result ≤ length piece.now }
{
    piece
        .iter()
        .position(|b| *b == NEWLINE)
        .unwrap_or(piece.len())
}

// A piece up to its first newline, or all of it, taken into a line of which len bytes are there. Nothing is allocated: the line is lent,
// and its length goes with it; that it is at most 65 is asked beside it.
pub fn fill(line: &mut [u8], len: usize, piece: &[u8]) -> Filled
    requires line_bytes_in_bounds { line_bytes ≤ length line.old }
    requires len_bound { len ≤ suc line_bytes }
    ensures { Fills line.old len piece.now result line.new }
{
    let n = line_end(piece);
    let at = len.min(LINE_BYTES);
    let stored = n.min(LINE_BYTES - at);
    line[at..at + stored].copy_from_slice(&piece[..stored]);
    Filled {
        len: (len + n).min(LINE_BYTES + 1),
        used: (n + 1).min(piece.len()),
        ended: n < piece.len(),
    }
}
