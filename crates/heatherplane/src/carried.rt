// A file carried to the other multiplier: it is only read.
ghost use Rattle.placement.specs.Lent.{held, before, after};
ghost use Rattle.calls.specs.Carry.{carry_of};
ghost use Rattle.calls.specs.Lent.{pool_before, pool_after_lem};
ghost use Rattle.heatherplane.specs.Reply.{RepliesStep, parameters_of_lem, record_of_lem};

use crate::replies::{Reply, record_of, recorded};
use hashing::Parameters;

#[unsafe(no_mangle)]
pub extern "C" fn heatherplane_carry(
    places: u32,
    groups: u32,
    width: u32,
    step: u32,
    bits: u32,
    load: u32,
    pages: u32,
    multiplier: u32,
    expansions: u32,
    expanded: u32,
    growing: u32,
    steps: u32,
    separators: &[u8],
    numbers: &[u32],
    words: &[u64],
    owners: &[u8],
    newplaces: u32,
    newgroups: u32,
    newwidth: u32,
    newstep: u32,
    newbits: u32,
    newload: u32,
    newpages: u32,
    newmultiplier: u32,
    newexpansions: u32,
    newexpanded: u32,
    newopen: u32,
    newsteps: u32,
    secondseparators: &mut [u8],
    secondnumbers: &mut [u32],
    secondwords: &mut [u64],
    secondowners: &mut [u8],
    poolnumbers: &mut [u32],
    poolwords: &mut [u64],
    poolowners: &mut [u8],
) -> Reply
    ensures { RepliesStep (carry_of (parameters_of_lem places groups width step bits load pages multiplier) (record_of_lem expansions expanded growing steps) (held separators.now numbers.now words.now owners.now)
        (parameters_of_lem newplaces newgroups newwidth newstep newbits newload newpages newmultiplier)
        (record_of_lem newexpansions newexpanded newopen newsteps) (before secondseparators secondnumbers secondwords secondowners) (pool_before poolnumbers poolwords poolowners))
        result (after secondseparators secondnumbers secondwords secondowners) (pool_after_lem poolnumbers poolwords poolowners) }
{
    let parameters = Parameters {
        places,
        groups,
        width,
        step,
        bits,
        load,
        pages,
        multiplier,
    };
    let growth = record_of(expansions, expanded, growing, steps);
    let newparameters = Parameters {
        places: newplaces,
        groups: newgroups,
        width: newwidth,
        step: newstep,
        bits: newbits,
        load: newload,
        pages: newpages,
        multiplier: newmultiplier,
    };
    let newgrowth = record_of(newexpansions, newexpanded, newopen, newsteps);
    let answer = starfile::carry(
        parameters,
        growth,
        separators,
        numbers,
        words,
        owners,
        newparameters,
        newgrowth,
        secondseparators,
        secondnumbers,
        secondwords,
        secondowners,
        poolnumbers,
        poolwords,
        poolowners,
    );
    recorded(answer)
}
