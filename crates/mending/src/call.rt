// The call, its refusals in the documents' order: 1, 2, 16, 15, 8.
ghost use Rattle.placement.specs.Lent.{held, before, after};
ghost use Rattle.placement.specs.Ready.{Pooled};
ghost use Rattle.calls.specs.Answers.{Leaves, cleared, placed};
ghost use Rattle.calls.specs.Shape.{Stores};
ghost use Rattle.calls.specs.Mend.{mend_on, mend_of, mend_under};
ghost use Rattle.calls.specs.Lent.{pool_before, pool_after_lem};
ghost use Rattle.calls.specs.Shape.{Admitted};

use crate::collection::collect;
use crate::contents::items_valid;
use crate::item_homes::find_homes;
use crate::renewing::renew;
use call_guard::{all_fit, at_rest, guard, turn_away};
use calls::answers::{Placed, Refusal};
use calls::records::GrowthRecord;
use hashing::{Geometry, Growth, Parameters};

// Past 15 the file's contents are only read until all stars are known to fit.
fn mend_file(
    parameters: Parameters,
    growth: Growth,
    separators: &mut [u8],
    numbers: &mut [u32],
    words: &mut [u64],
    owners: &mut [u8],
    poolnumbers: &mut [u32],
    poolwords: &mut [u64],
    poolowners: &mut [u8],
) -> Placed
    requires admitted { Admitted parameters growth (held separators.old numbers.old words.old owners.old) }
    requires pooled { Pooled parameters poolnumbers.old poolwords.old poolowners.old }
    ensures { Stores (mend_on parameters growth (before separators numbers words owners) (cleared (pool_before poolnumbers poolwords poolowners)))
        (placed result) (after separators numbers words owners) }
{
    if !items_valid(numbers, words, owners) {
        return Placed::Refused(Refusal::BadContents, 0);
    }
    let table = generator::first_multipliers(parameters.multiplier);
    find_homes(
        &table,
        Geometry { parameters, growth },
        numbers,
        poolnumbers,
    );
    let mut ends = [0u32; 1024];
    let collected = collect(
        parameters,
        numbers,
        words,
        owners,
        poolnumbers,
        poolwords,
        &mut ends,
    );
    if !collected.alike {
        return Placed::Refused(Refusal::BadContents, 0);
    }
    if !renew(
        parameters,
        separators,
        numbers,
        words,
        owners,
        poolnumbers,
        poolwords,
        poolowners,
        &ends,
        collected.end,
    ) {
        return Placed::Refused(Refusal::Full, 0);
    }
    Placed::On(0, 0)
}

fn mend_at(
    parameters: Parameters,
    growth: Growth,
    separators: &mut [u8],
    numbers: &mut [u32],
    words: &mut [u64],
    owners: &mut [u8],
    poolnumbers: &mut [u32],
    poolwords: &mut [u64],
    poolowners: &mut [u8],
) -> Placed
    ensures { Leaves (mend_of parameters growth (before separators numbers words owners) (pool_before poolnumbers poolwords poolowners))
        (placed result) (after separators numbers words owners) (pool_after_lem poolnumbers poolwords poolowners) }
{
    let fits = all_fit(
        parameters,
        separators.len(),
        numbers.len(),
        words.len(),
        owners.len(),
        poolnumbers.len(),
        poolwords.len(),
        poolowners.len(),
    );
    if let Err(refusal) = guard(parameters, growth, fits) {
        return Placed::Refused(refusal, 0);
    }
    let answer = mend_file(
        parameters,
        growth,
        separators,
        numbers,
        words,
        owners,
        poolnumbers,
        poolwords,
        poolowners,
    );
    plan_transfer::clear(poolnumbers, poolwords, poolowners);
    answer
}

// The answer of an accepted mending is page 0.
pub fn mend(
    parameters: Parameters,
    growth: GrowthRecord,
    separators: &mut [u8],
    numbers: &mut [u32],
    words: &mut [u64],
    owners: &mut [u8],
    poolnumbers: &mut [u32],
    poolwords: &mut [u64],
    poolowners: &mut [u8],
) -> Placed
    ensures leaves { Leaves (mend_under parameters growth (before separators numbers words owners) (pool_before poolnumbers poolwords poolowners))
        (placed result) (after separators numbers words owners) (pool_after_lem poolnumbers poolwords poolowners) }
{
    if !at_rest(growth) {
        return turn_away(
            parameters,
            growth,
            separators,
            numbers,
            words,
            owners,
            poolnumbers,
            poolwords,
            poolowners,
        );
    }
    mend_at(
        parameters,
        growth.state,
        separators,
        numbers,
        words,
        owners,
        poolnumbers,
        poolwords,
        poolowners,
    )
}
