// The five numbers of a state area, and an answer into a result area: functions and no `From`, as types and arrays are of other crates.
ghost use Rattle.std.specs.Prelude.{◌≡◌};
ghost use Rattle.wrap.specs.Holding.{told_by};
ghost use Rattle.calls.specs.Called.{answer_of};
ghost use Rattle.station.specs.Area.{state_in, numbers_of};
ghost use Rattle.station.specs.Result.{answer_words};
ghost use Rattle.station.specs.Station.{told_words};

use calls::Done;
use rules::{LIST_WORDS, Refusal, SLOTS, State};
use wrap::look::Holder;

// A state area: five numbers, then the planner's lists.
pub const LISTS_FROM: usize = 5;

pub const STATE_WORDS: usize = LISTS_FROM + LIST_WORDS;

// A result area: number, value and count.
pub const RESULT_WORDS: usize = 3;

// What stands for the slot where nobody holds the core: one past the last.
const NOBODY: u64 = SLOTS as u64;

// The state that five numbers are.
#[tactic(auto, unfolding(crate::specs::Area::state_in))]
pub fn state_in(numbers: &[u64; LISTS_FROM]) -> State
    ensures { result ≡ state_in numbers.now }
{
    let [cores, clock, start, used, count] = *numbers;
    State {
        cores,
        clock,
        start,
        used,
        count,
    }
}

// The five numbers of a state.
#[tactic(auto, unfolding(crate::specs::Area::numbers_of))]
pub fn numbers_of(state: State) -> [u64; LISTS_FROM]
    ensures { result ≡ numbers_of state }
{
    [
        state.cores,
        state.clock,
        state.start,
        state.used,
        state.count,
    ]
}

// The words of a call's answer: numbers, as C is given them.
#[tactic(auto, unfolding(calls::specs::Called::answer_of, rules::specs::Calls::refusal, crate::specs::Result::answer_words))]
fn words_of(answer: Result<Done, Refusal>) -> [u64; RESULT_WORDS]
    ensures { result ≡ answer_words (answer_of answer) }
{
    match answer {
        Ok(Done { value, count }) => [0, value, count],
        Err(refusal) => [refusal.number(), 0, 0],
    }
}

// A call's answer into a result area. Hands back the number.
#[tactic(auto, unfolding(crate::specs::Result::answer_words))]
pub fn tell(res: &mut [u64; RESULT_WORDS], answer: Result<Done, Refusal>) -> u64
    ensures value { result ≡ (answer_of answer).number }
    ensures res_after { res.new ≡ answer_words (answer_of answer) }
{
    *res = words_of(answer);
    res[0]
}

// What the words tell of who holds a core: the slot, or 64, and the grain, or 0. Taken apart by `let .. else`, as wherever the planner's
// finds are (docs/DECISIONS.md).
#[tactic(auto, unfolding(calls::specs::Called::answer_of, wrap::specs::Holding::told_by, crate::specs::Station::told_words, crate::specs::Station::holding_words))]
fn shown(holder: Holder) -> Done
    ensures { answer_of (Ok result) ≡ told_words 0 (told_by (Ok holder)).holding }
{
    let Holder::Held { slot, until } = holder else {
        let Holder::IdleUntil(grain) = holder else {
            return Done {
                value: NOBODY,
                count: 0,
            };
        };
        return Done {
            value: NOBODY,
            count: grain,
        };
    };
    Done {
        value: slot,
        count: until,
    }
}

// Holder's answer into a result area.
#[tactic(auto, using(crate::proofs::Telling::told_refused), unfolding(calls::specs::Called::answer_of, rules::specs::Calls::refusal, wrap::specs::Holding::told_by, crate::specs::Station::told_words, crate::specs::Station::holding_words))]
pub fn tell_holder(res: &mut [u64; RESULT_WORDS], holder: Result<Holder, Refusal>) -> u64
    ensures value { result ≡ (told_by holder).number }
    ensures res_after { res.new
        ≡ answer_words (told_words (told_by holder).number (told_by holder).holding) }
{
    tell(res, holder.map(shown))
}
