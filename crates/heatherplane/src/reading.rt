// The calls that only read the file.
ghost use Rattle.std.specs.Prelude.{◌≡◌};
ghost use Rattle.placement.specs.Lent.{held};
ghost use Rattle.calls.specs.Answers.{unpooled};
ghost use Rattle.calls.specs.Records.{look_up_under, due_under, check_under};
ghost use Rattle.calls.specs.Lent.{pool_before, pool_after_lem};
ghost use Rattle.heatherplane.specs.Reply.{Replies, reply_of_lem, parameters_of_lem, record_of_lem};

use crate::replies::{Reply, record_of, reply_of};
use calls::answers::{checked_answer, due_answer, sought_answer};
use hashing::Parameters;

#[unsafe(no_mangle)]
pub extern "C" fn heatherplane_look_up(
    places: u32,
    groups: u32,
    width: u32,
    step: u32,
    bits: u32,
    load: u32,
    pages: u32,
    multiplier: u32,
    expansions: u32,
    expanded: u32,
    growing: u32,
    steps: u32,
    separators: &[u8],
    numbers: &[u32],
    words: &[u64],
    owners: &[u8],
    number: u32,
) -> Reply
    ensures { result ≡ reply_of_lem (look_up_under (parameters_of_lem places groups width step bits load pages multiplier) (record_of_lem expansions expanded growing steps)
        (held separators.now numbers.now words.now owners.now) unpooled number).answer (record_of_lem expansions expanded growing steps) }
{
    let parameters = Parameters {
        places,
        groups,
        width,
        step,
        bits,
        load,
        pages,
        multiplier,
    };
    let growth = record_of(expansions, expanded, growing, steps);
    let found = starfile::look_up(
        parameters, growth, separators, numbers, words, owners, number,
    );
    reply_of(sought_answer(found), growth)
}

#[unsafe(no_mangle)]
pub extern "C" fn heatherplane_due(
    places: u32,
    groups: u32,
    width: u32,
    step: u32,
    bits: u32,
    load: u32,
    pages: u32,
    multiplier: u32,
    expansions: u32,
    expanded: u32,
    growing: u32,
    steps: u32,
    separators: &[u8],
    numbers: &[u32],
    words: &[u64],
    owners: &[u8],
) -> Reply
    ensures { result ≡ reply_of_lem (due_under (parameters_of_lem places groups width step bits load pages multiplier) (record_of_lem expansions expanded growing steps)
        (held separators.now numbers.now words.now owners.now) unpooled).answer (record_of_lem expansions expanded growing steps) }
{
    let parameters = Parameters {
        places,
        groups,
        width,
        step,
        bits,
        load,
        pages,
        multiplier,
    };
    let growth = record_of(expansions, expanded, growing, steps);
    let answer = starfile::due(parameters, growth, separators, numbers, words, owners);
    reply_of(due_answer(answer), growth)
}

#[unsafe(no_mangle)]
pub extern "C" fn heatherplane_check(
    places: u32,
    groups: u32,
    width: u32,
    step: u32,
    bits: u32,
    load: u32,
    pages: u32,
    multiplier: u32,
    expansions: u32,
    expanded: u32,
    growing: u32,
    steps: u32,
    separators: &[u8],
    numbers: &[u32],
    words: &[u64],
    owners: &[u8],
    poolnumbers: &mut [u32],
    poolwords: &mut [u64],
    poolowners: &mut [u8],
) -> Reply
    ensures { Replies (check_under (parameters_of_lem places groups width step bits load pages multiplier) (record_of_lem expansions expanded growing steps)
        (held separators.now numbers.now words.now owners.now) (pool_before poolnumbers poolwords poolowners))
        (record_of_lem expansions expanded growing steps) result (held separators.now numbers.now words.now owners.now) (pool_after_lem poolnumbers poolwords poolowners) }
{
    let parameters = Parameters {
        places,
        groups,
        width,
        step,
        bits,
        load,
        pages,
        multiplier,
    };
    let growth = record_of(expansions, expanded, growing, steps);
    let answer = starfile::check(
        parameters,
        growth,
        separators,
        numbers,
        words,
        owners,
        poolnumbers,
        poolwords,
        poolowners,
    );
    reply_of(checked_answer(answer), growth)
}
