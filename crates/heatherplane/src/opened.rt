// A growth in steps: the file is only read.
ghost use Rattle.placement.specs.Lent.{held, before, after};
ghost use Rattle.calls.specs.Records.{open_under, step_under};
ghost use Rattle.calls.specs.Lent.{pool_before, pool_after_lem};
ghost use Rattle.heatherplane.specs.Reply.{RepliesStep, parameters_of_lem, record_of_lem};

use crate::replies::{Reply, record_of, recorded};
use hashing::Parameters;

#[unsafe(no_mangle)]
pub extern "C" fn heatherplane_open_growth(
    places: u32,
    groups: u32,
    width: u32,
    step: u32,
    bits: u32,
    load: u32,
    pages: u32,
    multiplier: u32,
    expansions: u32,
    expanded: u32,
    growing: u32,
    steps: u32,
    separators: &[u8],
    numbers: &[u32],
    words: &[u64],
    owners: &[u8],
    secondseparators: &mut [u8],
    secondnumbers: &mut [u32],
    secondwords: &mut [u64],
    secondowners: &mut [u8],
    poolnumbers: &mut [u32],
    poolwords: &mut [u64],
    poolowners: &mut [u8],
) -> Reply
    ensures { RepliesStep (open_under (parameters_of_lem places groups width step bits load pages multiplier) (record_of_lem expansions expanded growing steps)
        (held separators.now numbers.now words.now owners.now) (before secondseparators secondnumbers secondwords secondowners) (pool_before poolnumbers poolwords poolowners))
        result (after secondseparators secondnumbers secondwords secondowners) (pool_after_lem poolnumbers poolwords poolowners) }
{
    let parameters = Parameters {
        places,
        groups,
        width,
        step,
        bits,
        load,
        pages,
        multiplier,
    };
    let growth = record_of(expansions, expanded, growing, steps);
    let answer = starfile::open_growth(
        parameters,
        growth,
        separators,
        numbers,
        words,
        owners,
        secondseparators,
        secondnumbers,
        secondwords,
        secondowners,
        poolnumbers,
        poolwords,
        poolowners,
    );
    recorded(answer)
}

#[unsafe(no_mangle)]
pub extern "C" fn heatherplane_step_growth(
    places: u32,
    groups: u32,
    width: u32,
    step: u32,
    bits: u32,
    load: u32,
    pages: u32,
    multiplier: u32,
    expansions: u32,
    expanded: u32,
    growing: u32,
    steps: u32,
    separators: &[u8],
    numbers: &[u32],
    words: &[u64],
    owners: &[u8],
    secondseparators: &mut [u8],
    secondnumbers: &mut [u32],
    secondwords: &mut [u64],
    secondowners: &mut [u8],
    poolnumbers: &mut [u32],
    poolwords: &mut [u64],
    poolowners: &mut [u8],
) -> Reply
    ensures { RepliesStep (step_under (parameters_of_lem places groups width step bits load pages multiplier) (record_of_lem expansions expanded growing steps)
        (held separators.now numbers.now words.now owners.now) (before secondseparators secondnumbers secondwords secondowners) (pool_before poolnumbers poolwords poolowners))
        result (after secondseparators secondnumbers secondwords secondowners) (pool_after_lem poolnumbers poolwords poolowners) }
{
    let parameters = Parameters {
        places,
        groups,
        width,
        step,
        bits,
        load,
        pages,
        multiplier,
    };
    let growth = record_of(expansions, expanded, growing, steps);
    let answer = starfile::step_growth(
        parameters,
        growth,
        separators,
        numbers,
        words,
        owners,
        secondseparators,
        secondnumbers,
        secondwords,
        secondowners,
        poolnumbers,
        poolwords,
        poolowners,
    );
    recorded(answer)
}
