// Many calls at once: a lent history, run through the calls on a lent file.
ghost use Rattle.placement.specs.Lent.{before, after};
ghost use Rattle.calls.specs.Lent.{pool_before, pool_after_lem};
ghost use Rattle.history_replay.specs.Lent.{history_before};
ghost use Rattle.history_replay.specs.Replay.{resume_of};
ghost use Rattle.heatherplane.specs.Reply.{RepliesReplay, parameters_of_lem, state_of};

use crate::replies::{Reply, replay_reply};
use hashing::{Growth, Parameters};

// No growth is open: the state is (e, x) alone.
#[unsafe(no_mangle)]
pub extern "C" fn heatherplane_replay(
    places: u32,
    groups: u32,
    width: u32,
    step: u32,
    bits: u32,
    load: u32,
    pages: u32,
    multiplier: u32,
    expansions: u32,
    expanded: u32,
    separators: &mut [u8],
    numbers: &mut [u32],
    words: &mut [u64],
    owners: &mut [u8],
    poolnumbers: &mut [u32],
    poolwords: &mut [u64],
    poolowners: &mut [u8],
    kinds: &[u8],
    callers: &[u8],
    stars: &[u32],
    ras: &[u32],
    decs: &[i32],
    answers: &mut [u32],
) -> Reply
    ensures { RepliesReplay (resume_of (parameters_of_lem places groups width step bits load pages multiplier) (state_of expansions expanded)
        (before separators numbers words owners) (pool_before poolnumbers poolwords poolowners) (history_before kinds callers stars ras decs) answers.old)
        result answers.new (after separators numbers words owners) (pool_after_lem poolnumbers poolwords poolowners) }
{
    let parameters = Parameters {
        places,
        groups,
        width,
        step,
        bits,
        load,
        pages,
        multiplier,
    };
    let growth = Growth {
        expansions,
        expanded,
    };
    let resumed = history_replay::resume(
        parameters,
        growth,
        separators,
        numbers,
        words,
        owners,
        poolnumbers,
        poolwords,
        poolowners,
        kinds,
        callers,
        stars,
        ras,
        decs,
        answers,
    );
    replay_reply(resumed)
}
