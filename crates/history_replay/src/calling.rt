// One call of a lent history.
ghost use Rattle.std.specs.Prelude.{◌≡◌, ◌+◌, ◌≤◌, length};
ghost use Rattle.placement.specs.Lent.{before, after};
ghost use Rattle.calls.specs.Lent.{pool_before, pool_after_lem};
ghost use Rattle.history_replay.specs.Replay.{request_of};
ghost use Rattle.history_replay.specs.Steps.{call_at, pooled_request, whole_request, entry_request, Steps, Recorded};

use calls::answers::{Answer, checked_answer, due_answer, placed_answer, sought_answer};
use calls::records::GrowthRecord;
use hashing::{Growth, Parameters};
use pages::position::Position;

// What a call answered, and the growth state after it.
#[derive(Clone, Copy)]
pub struct Stepped {
    pub answer: Answer,
    pub growth: Growth,
}

// Runs the call of a kind: 0 look-up, 1 enter, 2 change, 3 remove, 4 grow, 5 due, 6 check, 7 shrink, 8 enter by a cascade.
fn run_call(
    parameters: Parameters,
    growth: Growth,
    separators: &mut [u8],
    numbers: &mut [u32],
    words: &mut [u64],
    owners: &mut [u8],
    poolnumbers: &mut [u32],
    poolwords: &mut [u64],
    poolowners: &mut [u8],
    kind: u8,
    caller: u8,
    star: u32,
    position: Position,
) -> Stepped
    ensures { Steps (call_at parameters growth (before separators numbers words owners) (pool_before poolnumbers poolwords poolowners) (request_of kind caller star position))
        result (after separators numbers words owners) (pool_after_lem poolnumbers poolwords poolowners) }
{
    let record = GrowthRecord {
        state: growth,
        growing: false,
        steps: 0,
    };
    if kind == 0 {
        let found = starfile::look_up(parameters, record, separators, numbers, words, owners, star);
        return unmoved(sought_answer(found), growth);
    }
    if kind == 2 {
        let changed = starfile::change(
            parameters, record, separators, numbers, words, owners, caller, star, position,
        );
        return unmoved(placed_answer(changed), growth);
    }
    if kind == 5 {
        let due = starfile::due(parameters, record, separators, numbers, words, owners);
        return unmoved(due_answer(due), growth);
    }
    run_pooled(
        parameters,
        growth,
        separators,
        numbers,
        words,
        owners,
        poolnumbers,
        poolwords,
        poolowners,
        kind,
        caller,
        star,
        position,
    )
}

// The kinds whose call is lent the pool.
fn run_pooled(
    parameters: Parameters,
    growth: Growth,
    separators: &mut [u8],
    numbers: &mut [u32],
    words: &mut [u64],
    owners: &mut [u8],
    poolnumbers: &mut [u32],
    poolwords: &mut [u64],
    poolowners: &mut [u8],
    kind: u8,
    caller: u8,
    star: u32,
    position: Position,
) -> Stepped
    ensures { Steps (call_at parameters growth (before separators numbers words owners) (pool_before poolnumbers poolwords poolowners) (pooled_request kind caller star position))
        result (after separators numbers words owners) (pool_after_lem poolnumbers poolwords poolowners) }
{
    let record = GrowthRecord {
        state: growth,
        growing: false,
        steps: 0,
    };
    if kind == 1 || kind == 8 {
        return run_entry(
            parameters,
            growth,
            separators,
            numbers,
            words,
            owners,
            poolnumbers,
            poolwords,
            poolowners,
            kind,
            caller,
            star,
            position,
        );
    }
    if kind == 3 {
        let removed = starfile::remove(
            parameters,
            record,
            separators,
            numbers,
            words,
            owners,
            poolnumbers,
            poolwords,
            poolowners,
            caller,
            star,
        );
        return unmoved(placed_answer(removed), growth);
    }
    run_whole(
        parameters,
        growth,
        separators,
        numbers,
        words,
        owners,
        poolnumbers,
        poolwords,
        poolowners,
        kind,
    )
}

// Either entry, of which kind 8 is the cascading one.
fn run_entry(
    parameters: Parameters,
    growth: Growth,
    separators: &mut [u8],
    numbers: &mut [u32],
    words: &mut [u64],
    owners: &mut [u8],
    poolnumbers: &mut [u32],
    poolwords: &mut [u64],
    poolowners: &mut [u8],
    kind: u8,
    caller: u8,
    star: u32,
    position: Position,
) -> Stepped
    ensures { Steps (call_at parameters growth (before separators numbers words owners) (pool_before poolnumbers poolwords poolowners) (entry_request kind caller star position))
        result (after separators numbers words owners) (pool_after_lem poolnumbers poolwords poolowners) }
{
    let record = GrowthRecord {
        state: growth,
        growing: false,
        steps: 0,
    };
    if kind == 8 {
        let cascaded = starfile::cascade(
            parameters,
            record,
            separators,
            numbers,
            words,
            owners,
            poolnumbers,
            poolwords,
            poolowners,
            caller,
            star,
            position,
        );
        return unmoved(placed_answer(cascaded), growth);
    }
    let entered = starfile::enter(
        parameters,
        record,
        separators,
        numbers,
        words,
        owners,
        poolnumbers,
        poolwords,
        poolowners,
        caller,
        star,
        position,
    );
    unmoved(placed_answer(entered), growth)
}

// The kinds of those that are about no one star.
fn run_whole(
    parameters: Parameters,
    growth: Growth,
    separators: &mut [u8],
    numbers: &mut [u32],
    words: &mut [u64],
    owners: &mut [u8],
    poolnumbers: &mut [u32],
    poolwords: &mut [u64],
    poolowners: &mut [u8],
    kind: u8,
) -> Stepped
    ensures { Steps (call_at parameters growth (before separators numbers words owners) (pool_before poolnumbers poolwords poolowners) (whole_request kind))
        result (after separators numbers words owners) (pool_after_lem poolnumbers poolwords poolowners) }
{
    let record = GrowthRecord {
        state: growth,
        growing: false,
        steps: 0,
    };
    if kind == 4 {
        let grown = starfile::grow(
            parameters,
            record,
            separators,
            numbers,
            words,
            owners,
            poolnumbers,
            poolwords,
            poolowners,
        );
        let answer = grown.answer;
        let next = grown.growth;
        return unmoved(placed_answer(answer), next.state);
    }
    if kind == 7 {
        let shrunk = starfile::shrink(
            parameters,
            record,
            separators,
            numbers,
            words,
            owners,
            poolnumbers,
            poolwords,
            poolowners,
        );
        let answer = shrunk.answer;
        let next = shrunk.growth;
        return unmoved(placed_answer(answer), next.state);
    }
    let checked = starfile::check(
        parameters,
        record,
        separators,
        numbers,
        words,
        owners,
        poolnumbers,
        poolwords,
        poolowners,
    );
    unmoved(checked_answer(checked), growth)
}

fn unmoved(answer: Answer, growth: Growth) -> Stepped
    ensures { result ≡ record { answer = answer; growth = growth } }
{
    Stepped { answer, growth }
}

// Runs one call, writes its eight answers from item `at` on and returns the growth state after it.
pub fn replay_step(
    parameters: Parameters,
    growth: Growth,
    separators: &mut [u8],
    numbers: &mut [u32],
    words: &mut [u64],
    owners: &mut [u8],
    poolnumbers: &mut [u32],
    poolwords: &mut [u64],
    poolowners: &mut [u8],
    kind: u8,
    caller: u8,
    star: u32,
    position: Position,
    answers: &mut [u32],
    at: usize,
) -> Growth
    requires { at + 8 ≤ length answers.old }
    ensures { Recorded (call_at parameters growth (before separators numbers words owners) (pool_before poolnumbers poolwords poolowners) (request_of kind caller star position))
        answers.old at result answers.new (after separators numbers words owners) (pool_after_lem poolnumbers poolwords poolowners) }
{
    let stepped = run_call(
        parameters,
        growth,
        separators,
        numbers,
        words,
        owners,
        poolnumbers,
        poolwords,
        poolowners,
        kind,
        caller,
        star,
        position,
    );
    let answer = stepped.answer;
    answer_row::write(answers, at, answer);
    stepped.growth
}
