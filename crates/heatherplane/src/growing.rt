// The calls that leave a growth state.
ghost use Rattle.placement.specs.Lent.{before, after};
ghost use Rattle.calls.specs.Answers.{unpooled};
ghost use Rattle.calls.specs.Calls.{make_of};
ghost use Rattle.calls.specs.Records.{grow_under, shrink_under, record_after, closed_record};
ghost use Rattle.calls.specs.Lent.{pool_before, pool_after_lem};
ghost use Rattle.heatherplane.specs.Reply.{Replies, parameters_of_lem, record_of_lem};

use crate::replies::{Reply, record_of, recorded};
use hashing::Parameters;

#[unsafe(no_mangle)]
pub extern "C" fn heatherplane_make(
    places: u32,
    groups: u32,
    width: u32,
    step: u32,
    bits: u32,
    load: u32,
    pages: u32,
    multiplier: u32,
    separators: &mut [u8],
    numbers: &mut [u32],
    words: &mut [u64],
    owners: &mut [u8],
) -> Reply
    ensures { Replies (make_of (parameters_of_lem places groups width step bits load pages multiplier) (before separators numbers words owners) unpooled)
        (closed_record (make_of (parameters_of_lem places groups width step bits load pages multiplier) (before separators numbers words owners) unpooled).growth)
        result (after separators numbers words owners) unpooled }
{
    let parameters = Parameters {
        places,
        groups,
        width,
        step,
        bits,
        load,
        pages,
        multiplier,
    };
    recorded(starfile::make(parameters, separators, numbers, words, owners))
}

#[unsafe(no_mangle)]
pub extern "C" fn heatherplane_grow(
    places: u32,
    groups: u32,
    width: u32,
    step: u32,
    bits: u32,
    load: u32,
    pages: u32,
    multiplier: u32,
    expansions: u32,
    expanded: u32,
    growing: u32,
    steps: u32,
    separators: &mut [u8],
    numbers: &mut [u32],
    words: &mut [u64],
    owners: &mut [u8],
    poolnumbers: &mut [u32],
    poolwords: &mut [u64],
    poolowners: &mut [u8],
) -> Reply
    ensures { Replies (grow_under (parameters_of_lem places groups width step bits load pages multiplier) (record_of_lem expansions expanded growing steps)
        (before separators numbers words owners) (pool_before poolnumbers poolwords poolowners))
        (record_after (record_of_lem expansions expanded growing steps) (grow_under (parameters_of_lem places groups width step bits load pages multiplier) (record_of_lem expansions expanded growing steps)
        (before separators numbers words owners) (pool_before poolnumbers poolwords poolowners)))
        result (after separators numbers words owners) (pool_after_lem poolnumbers poolwords poolowners) }
{
    let parameters = Parameters {
        places,
        groups,
        width,
        step,
        bits,
        load,
        pages,
        multiplier,
    };
    let growth = record_of(expansions, expanded, growing, steps);
    let answer = starfile::grow(
        parameters,
        growth,
        separators,
        numbers,
        words,
        owners,
        poolnumbers,
        poolwords,
        poolowners,
    );
    recorded(answer)
}

#[unsafe(no_mangle)]
pub extern "C" fn heatherplane_shrink(
    places: u32,
    groups: u32,
    width: u32,
    step: u32,
    bits: u32,
    load: u32,
    pages: u32,
    multiplier: u32,
    expansions: u32,
    expanded: u32,
    growing: u32,
    steps: u32,
    separators: &mut [u8],
    numbers: &mut [u32],
    words: &mut [u64],
    owners: &mut [u8],
    poolnumbers: &mut [u32],
    poolwords: &mut [u64],
    poolowners: &mut [u8],
) -> Reply
    ensures { Replies (shrink_under (parameters_of_lem places groups width step bits load pages multiplier) (record_of_lem expansions expanded growing steps)
        (before separators numbers words owners) (pool_before poolnumbers poolwords poolowners))
        (record_after (record_of_lem expansions expanded growing steps) (shrink_under (parameters_of_lem places groups width step bits load pages multiplier) (record_of_lem expansions expanded growing steps)
        (before separators numbers words owners) (pool_before poolnumbers poolwords poolowners)))
        result (after separators numbers words owners) (pool_after_lem poolnumbers poolwords poolowners) }
{
    let parameters = Parameters {
        places,
        groups,
        width,
        step,
        bits,
        load,
        pages,
        multiplier,
    };
    let growth = record_of(expansions, expanded, growing, steps);
    let answer = starfile::shrink(
        parameters,
        growth,
        separators,
        numbers,
        words,
        owners,
        poolnumbers,
        poolwords,
        poolowners,
    );
    recorded(answer)
}
