// Growth, at once and in steps, and shrinking for a caller who lends the growth record.

#![tactic(auto)]

ghost use Rattle.std.specs.Prelude.{◌≡◌};
ghost use Rattle.placement.specs.Lent.{held, before, after};
ghost use Rattle.calls.specs.Answers.{Leaves, placed};
ghost use Rattle.calls.specs.Lent.{pool_before, pool_after_lem};
ghost use Rattle.calls.specs.Records.{grow_under, shrink_under, record_after, open_under, step_under, LeavesStep};
ghost use Rattle.growth_record.specs.Record.{recorded_as};
ghost use Rattle.growth_record.specs.Shape.{kept_by};

use calls::answers::Placed;
use calls::records::{GrowthRecord, Recorded};
use hashing::Parameters;

// "The pair (e, x) is one record that growth updates for its caller": stored if growth was accepted.
pub fn grow(
    parameters: Parameters,
    growth: &mut GrowthRecord,
    separators: &mut [u8],
    numbers: &mut [u32],
    words: &mut [u64],
    owners: &mut [u8],
    poolnumbers: &mut [u32],
    poolwords: &mut [u64],
    poolowners: &mut [u8],
) -> Placed
    ensures leaves { Leaves (grow_under parameters growth.old (before separators numbers words owners) (pool_before poolnumbers poolwords poolowners))
        (placed result) (after separators numbers words owners) (pool_after_lem poolnumbers poolwords poolowners) }
    ensures growth_after { growth.new ≡ record_after growth.old
        (grow_under parameters growth.old (before separators numbers words owners) (pool_before poolnumbers poolwords poolowners)) }
{
    let old = *growth;
    let grown = starfile::grow(
        parameters,
        old,
        separators,
        numbers,
        words,
        owners,
        poolnumbers,
        poolwords,
        poolowners,
    );
    *growth = kept(old, grown);
    grown.answer
}

// The same of shrinking.
pub fn shrink(
    parameters: Parameters,
    growth: &mut GrowthRecord,
    separators: &mut [u8],
    numbers: &mut [u32],
    words: &mut [u64],
    owners: &mut [u8],
    poolnumbers: &mut [u32],
    poolwords: &mut [u64],
    poolowners: &mut [u8],
) -> Placed
    ensures leaves { Leaves (shrink_under parameters growth.old (before separators numbers words owners) (pool_before poolnumbers poolwords poolowners))
        (placed result) (after separators numbers words owners) (pool_after_lem poolnumbers poolwords poolowners) }
    ensures growth_after { growth.new ≡ record_after growth.old
        (shrink_under parameters growth.old (before separators numbers words owners) (pool_before poolnumbers poolwords poolowners)) }
{
    let old = *growth;
    let shrunk = starfile::shrink(
        parameters,
        old,
        separators,
        numbers,
        words,
        owners,
        poolnumbers,
        poolwords,
        poolowners,
    );
    *growth = kept(old, shrunk);
    shrunk.answer
}

// Opens a growth into the second set, and tells the record.
pub fn open_growth(
    parameters: Parameters,
    growth: &mut GrowthRecord,
    separators: &[u8],
    numbers: &[u32],
    words: &[u64],
    owners: &[u8],
    secondseparators: &mut [u8],
    secondnumbers: &mut [u32],
    secondwords: &mut [u64],
    secondowners: &mut [u8],
    poolnumbers: &mut [u32],
    poolwords: &mut [u64],
    poolowners: &mut [u8],
) -> Placed
    ensures leaves { LeavesStep (open_under parameters growth.old (held separators.now numbers.now words.now owners.now)
        (before secondseparators secondnumbers secondwords secondowners) (pool_before poolnumbers poolwords poolowners))
        (recorded_as result growth.new) (after secondseparators secondnumbers secondwords secondowners) (pool_after_lem poolnumbers poolwords poolowners) }
{
    let old = *growth;
    let opened = starfile::open_growth(
        parameters,
        old,
        separators,
        numbers,
        words,
        owners,
        secondseparators,
        secondnumbers,
        secondwords,
        secondowners,
        poolnumbers,
        poolwords,
        poolowners,
    );
    *growth = opened.growth;
    opened.answer
}

// One of its steps.
pub fn step_growth(
    parameters: Parameters,
    growth: &mut GrowthRecord,
    separators: &[u8],
    numbers: &[u32],
    words: &[u64],
    owners: &[u8],
    secondseparators: &mut [u8],
    secondnumbers: &mut [u32],
    secondwords: &mut [u64],
    secondowners: &mut [u8],
    poolnumbers: &mut [u32],
    poolwords: &mut [u64],
    poolowners: &mut [u8],
) -> Placed
    ensures leaves { LeavesStep (step_under parameters growth.old (held separators.now numbers.now words.now owners.now)
        (before secondseparators secondnumbers secondwords secondowners) (pool_before poolnumbers poolwords poolowners))
        (recorded_as result growth.new) (after secondseparators secondnumbers secondwords secondowners) (pool_after_lem poolnumbers poolwords poolowners) }
{
    let old = *growth;
    let stepped = starfile::step_growth(
        parameters,
        old,
        separators,
        numbers,
        words,
        owners,
        secondseparators,
        secondnumbers,
        secondwords,
        secondowners,
        poolnumbers,
        poolwords,
        poolowners,
    );
    *growth = stepped.growth;
    stepped.answer
}

// The record after the call: the new one if it was accepted, the old one if it was refused.
fn kept(old: GrowthRecord, grown: Recorded) -> GrowthRecord
    ensures { result ≡ kept_by grown.answer old grown.growth }
{
    let answer = grown.answer;
    match answer {
        Placed::On(_, _) => grown.growth,
        Placed::Refused(_, _) => old,
    }
}
