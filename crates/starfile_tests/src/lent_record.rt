// The functions of crate growth_record for a caller who keeps the growth record by value: each lends a copy of it and answers what it holds
// afterwards. They promise what those of starfile do.
ghost use Rattle.std.specs.Prelude.{◌≡◌};
ghost use Rattle.placement.specs.Lent.{held, before, after};
ghost use Rattle.calls.specs.Answers.{Leaves, placed};
ghost use Rattle.calls.specs.Lent.{pool_before, pool_after_lem};
ghost use Rattle.calls.specs.Records.{grow_under, shrink_under, record_after, open_under, step_under, LeavesStep};

use calls::records::{GrowthRecord, Recorded};
use hashing::Parameters;

pub fn grow(
    parameters: Parameters,
    mut growth: GrowthRecord,
    separators: &mut [u8],
    numbers: &mut [u32],
    words: &mut [u64],
    owners: &mut [u8],
    poolnumbers: &mut [u32],
    poolwords: &mut [u64],
    poolowners: &mut [u8],
) -> Recorded
    ensures leaves { Leaves (grow_under parameters growth (before separators numbers words owners) (pool_before poolnumbers poolwords poolowners))
        (placed result.answer) (after separators numbers words owners) (pool_after_lem poolnumbers poolwords poolowners) }
    ensures growth_after { result.growth ≡ record_after growth (grow_under parameters growth (before separators numbers words owners) (pool_before poolnumbers poolwords poolowners)) }
{
    let answer = growth_record::grow(
        parameters,
        &mut growth,
        separators,
        numbers,
        words,
        owners,
        poolnumbers,
        poolwords,
        poolowners,
    );
    Recorded { answer, growth }
}

pub fn shrink(
    parameters: Parameters,
    mut growth: GrowthRecord,
    separators: &mut [u8],
    numbers: &mut [u32],
    words: &mut [u64],
    owners: &mut [u8],
    poolnumbers: &mut [u32],
    poolwords: &mut [u64],
    poolowners: &mut [u8],
) -> Recorded
    ensures leaves { Leaves (shrink_under parameters growth (before separators numbers words owners) (pool_before poolnumbers poolwords poolowners))
        (placed result.answer) (after separators numbers words owners) (pool_after_lem poolnumbers poolwords poolowners) }
    ensures growth_after { result.growth ≡ record_after growth (shrink_under parameters growth (before separators numbers words owners) (pool_before poolnumbers poolwords poolowners)) }
{
    let answer = growth_record::shrink(
        parameters,
        &mut growth,
        separators,
        numbers,
        words,
        owners,
        poolnumbers,
        poolwords,
        poolowners,
    );
    Recorded { answer, growth }
}

pub fn open_growth(
    parameters: Parameters,
    mut growth: GrowthRecord,
    separators: &[u8],
    numbers: &[u32],
    words: &[u64],
    owners: &[u8],
    secondseparators: &mut [u8],
    secondnumbers: &mut [u32],
    secondwords: &mut [u64],
    secondowners: &mut [u8],
    poolnumbers: &mut [u32],
    poolwords: &mut [u64],
    poolowners: &mut [u8],
) -> Recorded
    ensures leaves { LeavesStep (open_under parameters growth (held separators.now numbers.now words.now owners.now)
        (before secondseparators secondnumbers secondwords secondowners) (pool_before poolnumbers poolwords poolowners))
        result (after secondseparators secondnumbers secondwords secondowners) (pool_after_lem poolnumbers poolwords poolowners) }
{
    let answer = growth_record::open_growth(
        parameters,
        &mut growth,
        separators,
        numbers,
        words,
        owners,
        secondseparators,
        secondnumbers,
        secondwords,
        secondowners,
        poolnumbers,
        poolwords,
        poolowners,
    );
    Recorded { answer, growth }
}

pub fn step_growth(
    parameters: Parameters,
    mut growth: GrowthRecord,
    separators: &[u8],
    numbers: &[u32],
    words: &[u64],
    owners: &[u8],
    secondseparators: &mut [u8],
    secondnumbers: &mut [u32],
    secondwords: &mut [u64],
    secondowners: &mut [u8],
    poolnumbers: &mut [u32],
    poolwords: &mut [u64],
    poolowners: &mut [u8],
) -> Recorded
    ensures leaves { LeavesStep (step_under parameters growth (held separators.now numbers.now words.now owners.now)
        (before secondseparators secondnumbers secondwords secondowners) (pool_before poolnumbers poolwords poolowners))
        result (after secondseparators secondnumbers secondwords secondowners) (pool_after_lem poolnumbers poolwords poolowners) }
{
    let answer = growth_record::step_growth(
        parameters,
        &mut growth,
        separators,
        numbers,
        words,
        owners,
        secondseparators,
        secondnumbers,
        secondwords,
        secondowners,
        poolnumbers,
        poolwords,
        poolowners,
    );
    Recorded { answer, growth }
}
