// A lent history, run through the calls from a file made for it, or from a lent one.
ghost use Rattle.std.specs.Prelude.{◌≡◌, []};
ghost use Rattle.placement.specs.Lent.{before, after};
ghost use Rattle.histories.specs.Run.{fresh};
ghost use Rattle.calls.specs.Lent.{pool_before, pool_after_lem};
ghost use Rattle.history_replay.specs.Lent.{history_before};
ghost use Rattle.history_replay.specs.Replay.{lent_history, all_kinds, even_lengths, even_pool, requests_of, no_second, replay_of, resume_of, Replays, Resumes};
ghost use Rattle.history_replay.specs.Steps.{Even, Runs};

use crate::calling::replay_step;
use calls::answers::{Placed, Refusal};
use calls::records::GrowthRecord;
use hashing::{Growth, Parameters};
use pages::position::Position;

#[derive(Clone, Copy)]
pub enum Replayed {
    // with the growth state after the last call
    Done(Growth),
    // a kind is none of the nine
    BadKind,
    // for a length of what is lent, or as make refused
    Refused(Refusal),
}

// 0, 2, or 256 for a kind that is none of the nine; and the growth state after the last call, or the one before if it was refused.
#[derive(Clone, Copy)]
pub struct Resumed {
    pub refusal: u32,
    pub growth: Growth,
}

// Kinds: 0 look-up, 1 enter, 2 change, 3 remove, 4 grow, 5 due, 6 check, 7 shrink, 8 enter by a cascade; a caller, a number and a position
// for each call, which the kinds that take none ignore. Answers: refusal, page, place, found, right ascension, declination + 2^31, due, stars.
pub fn replay(
    parameters: Parameters,
    separators: &mut [u8],
    numbers: &mut [u32],
    words: &mut [u64],
    owners: &mut [u8],
    poolnumbers: &mut [u32],
    poolwords: &mut [u64],
    poolowners: &mut [u8],
    kinds: &[u8],
    callers: &[u8],
    stars: &[u32],
    ras: &[u32],
    decs: &[i32],
    answers: &mut [u32],
) -> Replayed
    ensures leaves { Replays
        (replay_of parameters (before separators numbers words owners) (pool_before poolnumbers poolwords poolowners) (history_before kinds callers stars ras decs) answers.old)
        result answers.new (after separators numbers words owners) (pool_after_lem poolnumbers poolwords poolowners) }
{
    if !lengths_agree(
        kinds.len(),
        callers.len(),
        stars.len(),
        ras.len(),
        decs.len(),
        answers.len(),
    ) {
        return Replayed::Refused(Refusal::BadLength);
    }
    if !pool_agrees(
        numbers.len(),
        words.len(),
        owners.len(),
        poolnumbers.len(),
        poolwords.len(),
        poolowners.len(),
    ) {
        return Replayed::Refused(Refusal::BadLength);
    }
    if !kinds_known(kinds) {
        return Replayed::BadKind;
    }
    let made = starfile::make(parameters, separators, numbers, words, owners);
    let answer = made.answer;
    match answer {
        Placed::On(_, _) => Replayed::Done(run(
            parameters,
            made.growth,
            separators,
            numbers,
            words,
            owners,
            poolnumbers,
            poolwords,
            poolowners,
            kinds,
            callers,
            stars,
            ras,
            decs,
            answers,
        )),
        Placed::Refused(refusal, _) => Replayed::Refused(refusal),
    }
}

// The same from a file that is lent, with no growth open.
pub fn resume(
    parameters: Parameters,
    growth: Growth,
    separators: &mut [u8],
    numbers: &mut [u32],
    words: &mut [u64],
    owners: &mut [u8],
    poolnumbers: &mut [u32],
    poolwords: &mut [u64],
    poolowners: &mut [u8],
    kinds: &[u8],
    callers: &[u8],
    stars: &[u32],
    ras: &[u32],
    decs: &[i32],
    answers: &mut [u32],
) -> Resumed
    ensures leaves { Resumes
        (resume_of parameters growth (before separators numbers words owners) (pool_before poolnumbers poolwords poolowners) (history_before kinds callers stars ras decs) answers.old)
        result answers.new (after separators numbers words owners) (pool_after_lem poolnumbers poolwords poolowners) }
{
    if !lengths_agree(
        kinds.len(),
        callers.len(),
        stars.len(),
        ras.len(),
        decs.len(),
        answers.len(),
    ) {
        return Resumed { refusal: 2, growth };
    }
    if !kinds_known(kinds) {
        return Resumed {
            refusal: 256,
            growth,
        };
    }
    let last = run(
        parameters,
        GrowthRecord {
            state: growth,
            growing: false,
            steps: 0,
        },
        separators,
        numbers,
        words,
        owners,
        poolnumbers,
        poolwords,
        poolowners,
        kinds,
        callers,
        stars,
        ras,
        decs,
        answers,
    );
    Resumed {
        refusal: 0,
        growth: last,
    }
}

// A caller, a star, a right ascension and a declination for each kind, and eight answers.
fn lengths_agree(
    kinds: usize,
    callers: usize,
    stars: usize,
    ras: usize,
    decs: usize,
    answers: usize,
) -> bool
    ensures { result ≡ even_lengths kinds callers stars ras decs answers }
{
    callers == kinds
        && stars == kinds
        && ras == kinds
        && decs == kinds
        && answers % 8 == 0
        && answers / 8 == kinds
}

// The pool is as long as the file's numbers, words and owners.
fn pool_agrees(
    numbers: usize,
    words: usize,
    owners: usize,
    poolnumbers: usize,
    poolwords: usize,
    poolowners: usize,
) -> bool
    ensures { result ≡ even_pool numbers words owners poolnumbers poolwords poolowners }
{
    poolnumbers == numbers && poolwords == words && poolowners == owners
}

fn kinds_known(kinds: &[u8]) -> bool
    ensures { result ≡ all_kinds kinds.now }
{
    kinds.iter().all(|kind| *kind < 9)
}

// The calls in turn, each with what the one before left.
fn run(
    parameters: Parameters,
    growth: GrowthRecord,
    separators: &mut [u8],
    numbers: &mut [u32],
    words: &mut [u64],
    owners: &mut [u8],
    poolnumbers: &mut [u32],
    poolwords: &mut [u64],
    poolowners: &mut [u8],
    kinds: &[u8],
    callers: &[u8],
    stars: &[u32],
    ras: &[u32],
    decs: &[i32],
    answers: &mut [u32],
) -> Growth
    requires { Even (lent_history kinds.now callers.now stars.now ras.now decs.now) answers.old }
    ensures { Runs (fresh parameters growth.state (before separators numbers words owners) no_second) (pool_before poolnumbers poolwords poolowners)
        (requests_of (history_before kinds callers stars ras decs)) []
        result answers.new (after separators numbers words owners) (pool_after_lem poolnumbers poolwords poolowners) }
{
    let mut state = growth.state;
    for i in 0..kinds.len() {
        let position = Position {
            ra: ras[i],
            dec: decs[i],
        };
        state = replay_step(
            parameters,
            state,
            separators,
            numbers,
            words,
            owners,
            poolnumbers,
            poolwords,
            poolowners,
            kinds[i],
            callers[i],
            stars[i],
            position,
            answers,
            i * 8,
        );
    }
    state
}
