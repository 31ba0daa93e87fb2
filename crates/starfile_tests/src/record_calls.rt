// Growth, at once and in steps, and shrinking by crate growth_record, whose functions update a lent record.
ghost use Rattle.placement.specs.Lent.{held, before, after};
ghost use Rattle.calls.specs.Records.{grow_under, shrink_under, record_after, open_under, step_under};
ghost use Rattle.calls.specs.Lent.{pool_before, pool_after_lem};
ghost use Rattle.starfile_tests.specs.Reply.{TestReplies, TestRepliesStep, file_parameters, growth_record_lem};

use crate::lent_record;
use crate::replies::{FileParameters, Record, Reply, parameters_of, record_of, reply_of};

#[unsafe(no_mangle)]
pub extern "C" fn sft_record_grow(
    parameters: FileParameters,
    growth: Record,
    separators: &mut [u8],
    numbers: &mut [u32],
    words: &mut [u64],
    owners: &mut [u8],
    poolnumbers: &mut [u32],
    poolwords: &mut [u64],
    poolowners: &mut [u8],
) -> Reply
    ensures { TestReplies (grow_under (file_parameters parameters) (growth_record_lem growth) (before separators numbers words owners) (pool_before poolnumbers poolwords poolowners))
        (record_after (growth_record_lem growth) (grow_under (file_parameters parameters) (growth_record_lem growth) (before separators numbers words owners) (pool_before poolnumbers poolwords poolowners)))
        result (after separators numbers words owners) (pool_after_lem poolnumbers poolwords poolowners) }
{
    let values = parameters_of(parameters);
    let kept = record_of(growth);
    let recorded = lent_record::grow(
        values,
        kept,
        separators,
        numbers,
        words,
        owners,
        poolnumbers,
        poolwords,
        poolowners,
    );
    reply_of(recorded)
}

#[unsafe(no_mangle)]
pub extern "C" fn sft_record_shrink(
    parameters: FileParameters,
    growth: Record,
    separators: &mut [u8],
    numbers: &mut [u32],
    words: &mut [u64],
    owners: &mut [u8],
    poolnumbers: &mut [u32],
    poolwords: &mut [u64],
    poolowners: &mut [u8],
) -> Reply
    ensures { TestReplies (shrink_under (file_parameters parameters) (growth_record_lem growth) (before separators numbers words owners) (pool_before poolnumbers poolwords poolowners))
        (record_after (growth_record_lem growth) (shrink_under (file_parameters parameters) (growth_record_lem growth) (before separators numbers words owners) (pool_before poolnumbers poolwords poolowners)))
        result (after separators numbers words owners) (pool_after_lem poolnumbers poolwords poolowners) }
{
    let values = parameters_of(parameters);
    let kept = record_of(growth);
    let recorded = lent_record::shrink(
        values,
        kept,
        separators,
        numbers,
        words,
        owners,
        poolnumbers,
        poolwords,
        poolowners,
    );
    reply_of(recorded)
}

#[unsafe(no_mangle)]
pub extern "C" fn sft_record_open_growth(
    parameters: FileParameters,
    growth: Record,
    separators: &[u8],
    numbers: &[u32],
    words: &[u64],
    owners: &[u8],
    secondseparators: &mut [u8],
    secondnumbers: &mut [u32],
    secondwords: &mut [u64],
    secondowners: &mut [u8],
    poolnumbers: &mut [u32],
    poolwords: &mut [u64],
    poolowners: &mut [u8],
) -> Reply
    ensures { TestRepliesStep (open_under (file_parameters parameters) (growth_record_lem growth) (held separators.now numbers.now words.now owners.now)
        (before secondseparators secondnumbers secondwords secondowners) (pool_before poolnumbers poolwords poolowners))
        result (after secondseparators secondnumbers secondwords secondowners) (pool_after_lem poolnumbers poolwords poolowners) }
{
    let values = parameters_of(parameters);
    let kept = record_of(growth);
    let recorded = lent_record::open_growth(
        values,
        kept,
        separators,
        numbers,
        words,
        owners,
        secondseparators,
        secondnumbers,
        secondwords,
        secondowners,
        poolnumbers,
        poolwords,
        poolowners,
    );
    reply_of(recorded)
}

#[unsafe(no_mangle)]
pub extern "C" fn sft_record_step_growth(
    parameters: FileParameters,
    growth: Record,
    separators: &[u8],
    numbers: &[u32],
    words: &[u64],
    owners: &[u8],
    secondseparators: &mut [u8],
    secondnumbers: &mut [u32],
    secondwords: &mut [u64],
    secondowners: &mut [u8],
    poolnumbers: &mut [u32],
    poolwords: &mut [u64],
    poolowners: &mut [u8],
) -> Reply
    ensures { TestRepliesStep (step_under (file_parameters parameters) (growth_record_lem growth) (held separators.now numbers.now words.now owners.now)
        (before secondseparators secondnumbers secondwords secondowners) (pool_before poolnumbers poolwords poolowners))
        result (after secondseparators secondnumbers secondwords secondowners) (pool_after_lem poolnumbers poolwords poolowners) }
{
    let values = parameters_of(parameters);
    let kept = record_of(growth);
    let recorded = lent_record::step_growth(
        values,
        kept,
        separators,
        numbers,
        words,
        owners,
        secondseparators,
        secondnumbers,
        secondwords,
        secondowners,
        poolnumbers,
        poolwords,
        poolowners,
    );
    reply_of(recorded)
}
