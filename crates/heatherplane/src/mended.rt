// What the pages hold after a power loss, placed anew.
ghost use Rattle.placement.specs.Lent.{before, after};
ghost use Rattle.calls.specs.Mend.{mend_under};
ghost use Rattle.calls.specs.Lent.{pool_before, pool_after_lem};
ghost use Rattle.heatherplane.specs.Reply.{Replies, parameters_of_lem, record_of_lem};

use crate::replies::{Reply, record_of, reply_of};
use calls::answers::placed_answer;
use hashing::Parameters;

#[unsafe(no_mangle)]
pub extern "C" fn heatherplane_mend(
    places: u32,
    groups: u32,
    width: u32,
    step: u32,
    bits: u32,
    load: u32,
    pages: u32,
    multiplier: u32,
    expansions: u32,
    expanded: u32,
    growing: u32,
    steps: u32,
    separators: &mut [u8],
    numbers: &mut [u32],
    words: &mut [u64],
    owners: &mut [u8],
    poolnumbers: &mut [u32],
    poolwords: &mut [u64],
    poolowners: &mut [u8],
) -> Reply
    ensures { Replies (mend_under (parameters_of_lem places groups width step bits load pages multiplier) (record_of_lem expansions expanded growing steps)
        (before separators numbers words owners) (pool_before poolnumbers poolwords poolowners))
        (record_of_lem expansions expanded growing steps) result (after separators numbers words owners) (pool_after_lem poolnumbers poolwords poolowners) }
{
    let parameters = Parameters {
        places,
        groups,
        width,
        step,
        bits,
        load,
        pages,
        multiplier,
    };
    let growth = record_of(expansions, expanded, growing, steps);
    let answer = mending::mend(
        parameters,
        growth,
        separators,
        numbers,
        words,
        owners,
        poolnumbers,
        poolwords,
        poolowners,
    );
    reply_of(placed_answer(answer), growth)
}
