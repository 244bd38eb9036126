ghost use Rattle.std.specs.Prelude.{◌≡◌, ◌+◌, ◌*◌, ◌≤◌, Some, length};
ghost use Rattle.rules.specs.Calls.{segment_words};
ghost use Rattle.wrap.specs.Asked.{most_segments};
ghost use Rattle.calls.specs.Called.{answer_of};
ghost use Rattle.planner.specs.Struct.{in_struct, leaves_by};
ghost use Rattle.text.specs.Grammar.{no_text, put_at};
ghost use Rattle.script.specs.Drilled.{answer_bytes, segment_text, segment_texts, answer_text, printed, answered, drilled, Printable, Printed, Answers};

use crate::Reply;
use calls::Done;
use planner::{Next, Planner};
use rules::{Refusal, WORDS_PER_SEGMENT};
use text::{Command, read_command, write_done, write_refused, write_segment};

// "A malformed line answers 14": a number for lines alone, as no call of the planner answers it.
const MALFORMED: u64 = 14;

// A segment, printed from a place on. Hands back the place after it.
#[tactic(auto, unfolding(crate::specs::Drilled::segment_text))]
fn print_segment(segment: &[u64; WORDS_PER_SEGMENT], out: &mut [u8], at: usize) -> usize
    requires { at + 87 ≤ length out.old }
    ensures value { result ≡ at + length (segment_text segment.now) }
    ensures out_after { out.new ≡ put_at at (segment_text segment.now) out.old }
{
    let [core, slot, first, after] = *segment;
    write_segment(out, at, core, slot, first, after)
}

// The first `count` segments of the buffer, printed from a place on. Hands back the place after them.
fn print_segments(segments: &[u64], count: usize, out: &mut [u8], at: usize) -> usize
    requires count_le_most_segments { count ≤ most_segments }
    requires segment_words_in_bounds { segment_words ≤ length segments.now }
    requires count_in_bounds { at + 87 * count ≤ length out.old }
    ensures value { result ≡ at + length (segment_texts count segments.now) }
    ensures out_after { out.new ≡ put_at at (segment_texts count segments.now) out.old }
    ensures upper_bound { result ≤ at + 87 * count }
{
    let (all, _) = segments.as_chunks::<WORDS_PER_SEGMENT>();
    let mut end = at;
    for segment in &all[..count] {
        end = print_segment(segment, out, end);
    }
    end
}

// A call's answer, printed at the front of the output, with the segments that it counts. Hands back how many bytes that are.
fn print(answer: Result<Done, Refusal>, segments: &[u64], out: &mut [u8]) -> usize
    requires printable { Printable (answer_of answer) }
    requires segment_words_in_bounds { segment_words ≤ length segments.now }
    requires answer_bytes_in_bounds { answer_bytes ≤ length out.old }
    ensures { Printed (answer_text (answer_of answer) segments.now)
        result out.old out.new }
{
    match answer {
        Ok(Done { value, count }) => {
            let at = write_done(out, 0, value);
            print_segments(segments, count as usize, out, at)
        }
        Err(refusal) => write_refused(out, 0, refusal.number()),
    }
}

// A malformed line "answers 14, before any other reason, and has no effect".
pub fn malformed(p: Planner, out: &mut [u8]) -> Reply
    requires { answer_bytes ≤ length out.old }
    ensures planner_value { result.planner ≡ p }
    ensures printed { Printed (no_text 14) result.used out.old out.new }
{
    let used = write_refused(out, 0, MALFORMED);
    Reply { planner: p, used }
}

// The call that a command says. Only an advance is lent the segment buffer.
#[tactic(auto, using(crate::proofs::Answering::steps), unfolding(crate::specs::Drilled::answered))]
fn call(p: Planner, shares: &mut [u32], segments: &mut [u64], command: Command) -> Next
    ensures printable { Printable (answer_of result.answer) }
    ensures printed { printed (leaves_by result shares.new segments.new) segments.new
        ≡ answered (in_struct p) shares.old segments.old (Some command) }
{
    match command {
        Command::Open(cores) => p.open(shares, cores),
        Command::Declare(period, cost) => p.declare(shares, period, cost),
        Command::Withdraw(slot) => p.withdraw(shares, slot),
        Command::Release(slot) => p.release(shares, slot),
        Command::Advance(tick) => p.advance(shares, tick, segments),
    }
}

// A command, answered.
#[tactic(auto, unfolding(crate::specs::Drilled::printed, calls::specs::Called::leaves))]
fn answer_command(
    p: Planner,
    shares: &mut [u32],
    segments: &mut [u64],
    command: Command,
    out: &mut [u8],
) -> Reply
    requires segment_words_in_bounds { segment_words ≤ length segments.old }
    requires answer_bytes_in_bounds { answer_bytes ≤ length out.old }
    ensures { Answers (answered (in_struct p) shares.old segments.old (Some command))
        result shares.new segments.new out.old out.new }
{
    let Next { planner, answer } = call(p, shares, segments, command);
    let used = print(answer, segments, out);
    Reply { planner, used }
}

// A line, answered: the state that follows, the words lent, and the text at the front of the output.
#[tactic(auto, unfolding(crate::specs::Drilled::drilled, crate::specs::Drilled::answered))]
pub fn answer_line(
    p: Planner,
    shares: &mut [u32],
    segments: &mut [u64],
    line: &[u8],
    out: &mut [u8],
) -> Reply
    requires segment_words_in_bounds { segment_words ≤ length segments.old }
    requires answer_bytes_in_bounds { answer_bytes ≤ length out.old }
    ensures { Answers (drilled (in_struct p) shares.old segments.old line.now)
        result shares.new segments.new out.old out.new }
{
    match read_command(line) {
        Some(command) => answer_command(p, shares, segments, command, out),
        None => malformed(p, out),
    }
}
