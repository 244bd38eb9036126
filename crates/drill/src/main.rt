// The drill program: a script of commands from standard input, and the planner's answers to standard output.
// It reads, hands what it read to `script`, and writes what that printed; all that can be said of the answers is said there.
#![tactic(auto)]

ghost use Rattle.std.specs.Prelude.{suc, ◌≤◌, IfOk};
ghost use Rattle.lines.specs.Lines.{line_bytes};

use lines::LINE_BYTES;
use planner::Planner;
use rules::{SEGMENT_WORDS, SHARE_WORDS};
use script::{feed_lines, finish};
use std::io;
use std::io::{Read, Write};

// So much is read at once, and so much is printed before it is written out.
const PIECE_BYTES: usize = 65536;

// Between two reads: the planner, and how much is kept of the line that has no newline yet.
#[derive(Clone, Copy)]
struct Running {
    planner: Planner,
    len: usize,
}

// A piece of the script, all of it: as many lines as the output has room for, written out, until none is left.
fn answer_piece<W: Write>(
    output: &mut W,
    mut state: Running,
    shares: &mut [u32; SHARE_WORDS],
    segments: &mut [u64; SEGMENT_WORDS],
    line: &mut [u8; LINE_BYTES],
    piece: &[u8],
    out: &mut [u8; PIECE_BYTES],
) -> io::Result<Running>
    requires { state.len ≤ suc line_bytes }
    ensures { IfOk result (λ running. running.len ≤ suc line_bytes) }
{
    let mut rest = piece;
    // Each turn moves on by as many bytes as its lines took.
    while !rest.is_empty() {
        let fed = feed_lines(state.planner, shares, segments, line, state.len, rest, out);
        output.write_all(&out[..fed.written])?;
        rest = &rest[fed.used..];
        state = Running {
            planner: fed.planner,
            len: fed.len,
        };
    }
    Ok(state)
}

// The whole script. A proved loop has to end, and nothing says that the input does: so it counts its reads, up to a number that no
// run comes to.
fn answer_all<R: Read, W: Write>(
    reader: &mut R,
    output: &mut W,
    shares: &mut [u32; SHARE_WORDS],
    segments: &mut [u64; SEGMENT_WORDS],
    line: &mut [u8; LINE_BYTES],
    input: &mut [u8; PIECE_BYTES],
    out: &mut [u8; PIECE_BYTES],
) -> io::Result<()> {
    let mut state = Running {
        planner: Planner::blank(),
        len: 0,
    };
    for _ in 0..u64::MAX {
        let n = reader.read(input)?;
        if n == 0 {
            break;
        }
        state = answer_piece(output, state, shares, segments, line, &input[..n], out)?;
    }
    let last = finish(state.planner, shares, segments, line, state.len, out);
    output.write_all(&out[..last.used])
}

fn main(rt: HostRuntime) -> io::Result<()> {
    let mut shares = [0u32; SHARE_WORDS];
    let mut segments = [0u64; SEGMENT_WORDS];
    let mut line = [0u8; LINE_BYTES];
    let mut input = [0u8; PIECE_BYTES];
    let mut out = [0u8; PIECE_BYTES];
    answer_all(
        &mut rt.stdin(),
        &mut rt.stdout(),
        &mut shares,
        &mut segments,
        &mut line,
        &mut input,
        &mut out,
    )
}
