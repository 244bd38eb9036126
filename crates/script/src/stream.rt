ghost use Rattle.std.specs.Prelude.{◌≡◌, List, ℕ, suc, ◌≤◌, length, take};
ghost use Rattle.rules.specs.Calls.{segment_words};
ghost use Rattle.planner.specs.Struct.{in_struct};
ghost use Rattle.lines.specs.Lines.{line_bytes, taken, Keeps};
ghost use Rattle.script.specs.Drilled.{answer_bytes, drilled, Answers};
ghost use Rattle.script.specs.Fed.{midst, silent, fed, lastly, Comes, Goes};

use crate::answer::{answer_line, malformed};
use crate::{ANSWER_BYTES, Fed, Reply};
use lines::{Filled, LINE_BYTES, fill};
use planner::Planner;

// The line of which len bytes are kept, answered: over 64 bytes it is malformed, and not all of it is stored.
fn answer_kept(
    p: Planner,
    shares: &mut [u32],
    segments: &mut [u64],
    line: &[u8],
    len: usize,
    out: &mut [u8],
) -> Reply
    requires segment_words_in_bounds { segment_words ≤ length segments.old }
    requires answer_bytes_in_bounds { answer_bytes ≤ length out.old }
    requires line_bytes_in_bounds { line_bytes ≤ length line.now }
    ensures used_le_answer_bytes { result.used ≤ answer_bytes }
    ensures says { (kept : List ℕ) → Keeps line.now len kept
        → Answers (drilled (in_struct p) shares.old segments.old kept)
        result shares.new segments.new out.old out.new }
{
    if LINE_BYTES < len {
        return malformed(p, out);
    }
    answer_line(p, shares, segments, &line[..len], out)
}

// A piece of a script up to its first newline, or all of it, is taken; where a line ended, it is answered.
pub fn feed(
    p: Planner,
    shares: &mut [u32],
    segments: &mut [u64],
    line: &mut [u8],
    len: usize,
    piece: &[u8],
    out: &mut [u8],
) -> Fed
    requires segment_words_in_bounds { segment_words ≤ length segments.old }
    requires answer_bytes_in_bounds { answer_bytes ≤ length out.old }
    requires line_bytes_in_bounds { line_bytes ≤ length line.old }
    requires len_bound { len ≤ suc line_bytes }
    ensures kept_bound { result.len ≤ suc line_bytes }
    ensures used_value { result.used ≡ taken piece.now }
    ensures written_le_answer_bytes { result.written ≤ answer_bytes }
    ensures says { (kept : List ℕ) → Keeps line.old len kept
        → Comes (fed (midst (silent (in_struct p) shares.old segments.old) kept)
        (take result.used piece.now))
        result shares.new segments.new line.new out.old out.new }
{
    let Filled { len, used, ended } = fill(line, len, piece);
    if !ended {
        return Fed {
            planner: p,
            len,
            used,
            written: 0,
        };
    }
    let reply = answer_kept(p, shares, segments, line, len, out);
    Fed {
        planner: reply.planner,
        len: 0,
        used,
        written: reply.used,
    }
}

// The end of a script: what is kept of a line without its newline is a last line, where it is not empty.
pub fn finish(
    p: Planner,
    shares: &mut [u32],
    segments: &mut [u64],
    line: &[u8],
    len: usize,
    out: &mut [u8],
) -> Reply
    requires segment_words_in_bounds { segment_words ≤ length segments.old }
    requires answer_bytes_in_bounds { answer_bytes ≤ length out.old }
    requires line_bytes_in_bounds { line_bytes ≤ length line.now }
    ensures used_le_answer_bytes { result.used ≤ answer_bytes }
    ensures says { (kept : List ℕ) → Keeps line.now len kept
        → Answers (lastly (silent (in_struct p) shares.old segments.old) kept)
        result shares.new segments.new out.old out.new }
{
    let nothing_kept = len == 0;
    if nothing_kept {
        return Reply {
            planner: p,
            used: 0,
        };
    }
    answer_kept(p, shares, segments, line, len, out)
}

// As many lines of a piece as the output has room for.
pub fn feed_lines(
    p: Planner,
    shares: &mut [u32],
    segments: &mut [u64],
    line: &mut [u8],
    len: usize,
    piece: &[u8],
    out: &mut [u8],
) -> Fed
    requires segment_words_in_bounds { segment_words ≤ length segments.old }
    requires line_bytes_in_bounds { line_bytes ≤ length line.old }
    requires len_bound { len ≤ suc line_bytes }
    ensures goes { Goes (length piece.now) (length out.old) result }
    ensures says { (kept : List ℕ) → Keeps line.old len kept
        → Comes (fed (midst (silent (in_struct p) shares.old segments.old) kept)
        (take result.used piece.now))
        result shares.new segments.new line.new out.old out.new }
{
    let mut fed = Fed {
        planner: p,
        len,
        used: 0,
        written: 0,
    };
    // Each turn moves on by as many bytes as its line took.
    while fed.used < piece.len() && ANSWER_BYTES <= out.len() - fed.written {
        let line_fed = feed(
            fed.planner,
            shares,
            segments,
            line,
            fed.len,
            &piece[fed.used..],
            &mut out[fed.written..],
        );
        fed = Fed {
            used: fed.used + line_fed.used,
            written: fed.written + line_fed.written,
            ..line_fed
        };
    }
    fed
}
