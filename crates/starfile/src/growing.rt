// The calls that leave a growth state, with the record that holds it.
ghost use Rattle.std.specs.Prelude.{◌≡◌};
ghost use Rattle.calls.specs.Answers.{Leaves, unpooled, placed};
ghost use Rattle.calls.specs.Calls.{make_of};
ghost use Rattle.calls.specs.Records.{grow_under, shrink_under, record_after, closed_record};
ghost use Rattle.placement.specs.Lent.{before, after};
ghost use Rattle.calls.specs.Lent.{pool_before, pool_after_lem};

use call_guard::{at_rest, at_rest_after, turn_away};
use calls::records::{GrowthRecord, Recorded};
use hashing::Parameters;

// The file is left as document 01's empty file. "a new file has none open"
pub fn make(
    parameters: Parameters,
    separators: &mut [u8],
    numbers: &mut [u32],
    words: &mut [u64],
    owners: &mut [u8],
) -> Recorded
    ensures leaves { Leaves (make_of parameters (before separators numbers words owners) unpooled)
        (placed result.answer) (after separators numbers words owners) unpooled }
    ensures growth_after { result.growth ≡ closed_record (make_of parameters (before separators numbers words owners) unpooled).growth }
{
    at_rest_after(call_make::make(parameters, separators, numbers, words, owners))
}

// The answer of an accepted growth is the new page, with the new growth state.
pub fn grow(
    parameters: Parameters,
    growth: GrowthRecord,
    separators: &mut [u8],
    numbers: &mut [u32],
    words: &mut [u64],
    owners: &mut [u8],
    poolnumbers: &mut [u32],
    poolwords: &mut [u64],
    poolowners: &mut [u8],
) -> Recorded
    ensures leaves { Leaves (grow_under parameters growth (before separators numbers words owners) (pool_before poolnumbers poolwords poolowners))
        (placed result.answer) (after separators numbers words owners) (pool_after_lem poolnumbers poolwords poolowners) }
    ensures growth_after { result.growth ≡ record_after growth (grow_under parameters growth (before separators numbers words owners) (pool_before poolnumbers poolwords poolowners)) }
{
    if !at_rest(growth) {
        let answer = turn_away(
            parameters,
            growth,
            separators,
            numbers,
            words,
            owners,
            poolnumbers,
            poolwords,
            poolowners,
        );
        return Recorded { answer, growth };
    }
    at_rest_after(call_whole_file::grow(
        parameters,
        growth.state,
        separators,
        numbers,
        words,
        owners,
        poolnumbers,
        poolwords,
        poolowners,
    ))
}

// The answer of an accepted shrinking is the page given back, with the growth state before the latest growth.
pub fn shrink(
    parameters: Parameters,
    growth: GrowthRecord,
    separators: &mut [u8],
    numbers: &mut [u32],
    words: &mut [u64],
    owners: &mut [u8],
    poolnumbers: &mut [u32],
    poolwords: &mut [u64],
    poolowners: &mut [u8],
) -> Recorded
    ensures leaves { Leaves (shrink_under parameters growth (before separators numbers words owners) (pool_before poolnumbers poolwords poolowners))
        (placed result.answer) (after separators numbers words owners) (pool_after_lem poolnumbers poolwords poolowners) }
    ensures growth_after { result.growth ≡ record_after growth (shrink_under parameters growth (before separators numbers words owners) (pool_before poolnumbers poolwords poolowners)) }
{
    if !at_rest(growth) {
        let answer = turn_away(
            parameters,
            growth,
            separators,
            numbers,
            words,
            owners,
            poolnumbers,
            poolwords,
            poolowners,
        );
        return Recorded { answer, growth };
    }
    at_rest_after(call_whole_file::shrink(
        parameters,
        growth.state,
        separators,
        numbers,
        words,
        owners,
        poolnumbers,
        poolwords,
        poolowners,
    ))
}
