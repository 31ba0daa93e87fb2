// The calls that write one star.
ghost use Rattle.placement.specs.Lent.{held, before, after};
ghost use Rattle.calls.specs.Answers.{unpooled};
ghost use Rattle.calls.specs.Records.{enter_under, cascade_under, change_under, remove_under};
ghost use Rattle.calls.specs.Lent.{pool_before, pool_after_lem};
ghost use Rattle.heatherplane.specs.Reply.{Replies, parameters_of_lem, record_of_lem, position_of};

use crate::replies::{Reply, record_of, reply_of};
use calls::answers::placed_answer;
use hashing::Parameters;
use pages::position::Position;

#[unsafe(no_mangle)]
pub extern "C" fn heatherplane_enter(
    places: u32,
    groups: u32,
    width: u32,
    step: u32,
    bits: u32,
    load: u32,
    pages: u32,
    multiplier: u32,
    expansions: u32,
    expanded: u32,
    growing: u32,
    steps: u32,
    separators: &mut [u8],
    numbers: &mut [u32],
    words: &mut [u64],
    owners: &mut [u8],
    poolnumbers: &mut [u32],
    poolwords: &mut [u64],
    poolowners: &mut [u8],
    caller: u8,
    number: u32,
    ra: u32,
    dec: i32,
) -> Reply
    ensures { Replies (enter_under (parameters_of_lem places groups width step bits load pages multiplier) (record_of_lem expansions expanded growing steps)
        (before separators numbers words owners) (pool_before poolnumbers poolwords poolowners) caller number (position_of ra dec))
        (record_of_lem expansions expanded growing steps) result (after separators numbers words owners) (pool_after_lem poolnumbers poolwords poolowners) }
{
    let parameters = Parameters {
        places,
        groups,
        width,
        step,
        bits,
        load,
        pages,
        multiplier,
    };
    let growth = record_of(expansions, expanded, growing, steps);
    let answer = starfile::enter(
        parameters,
        growth,
        separators,
        numbers,
        words,
        owners,
        poolnumbers,
        poolwords,
        poolowners,
        caller,
        number,
        Position { ra, dec },
    );
    reply_of(placed_answer(answer), growth)
}

#[unsafe(no_mangle)]
pub extern "C" fn heatherplane_cascade(
    places: u32,
    groups: u32,
    width: u32,
    step: u32,
    bits: u32,
    load: u32,
    pages: u32,
    multiplier: u32,
    expansions: u32,
    expanded: u32,
    growing: u32,
    steps: u32,
    separators: &mut [u8],
    numbers: &mut [u32],
    words: &mut [u64],
    owners: &mut [u8],
    poolnumbers: &mut [u32],
    poolwords: &mut [u64],
    poolowners: &mut [u8],
    caller: u8,
    number: u32,
    ra: u32,
    dec: i32,
) -> Reply
    ensures { Replies (cascade_under (parameters_of_lem places groups width step bits load pages multiplier) (record_of_lem expansions expanded growing steps)
        (before separators numbers words owners) (pool_before poolnumbers poolwords poolowners) caller number (position_of ra dec))
        (record_of_lem expansions expanded growing steps) result (after separators numbers words owners) (pool_after_lem poolnumbers poolwords poolowners) }
{
    let parameters = Parameters {
        places,
        groups,
        width,
        step,
        bits,
        load,
        pages,
        multiplier,
    };
    let growth = record_of(expansions, expanded, growing, steps);
    let answer = starfile::cascade(
        parameters,
        growth,
        separators,
        numbers,
        words,
        owners,
        poolnumbers,
        poolwords,
        poolowners,
        caller,
        number,
        Position { ra, dec },
    );
    reply_of(placed_answer(answer), growth)
}

#[unsafe(no_mangle)]
pub extern "C" fn heatherplane_change(
    places: u32,
    groups: u32,
    width: u32,
    step: u32,
    bits: u32,
    load: u32,
    pages: u32,
    multiplier: u32,
    expansions: u32,
    expanded: u32,
    growing: u32,
    steps: u32,
    separators: &[u8],
    numbers: &[u32],
    words: &mut [u64],
    owners: &[u8],
    caller: u8,
    number: u32,
    ra: u32,
    dec: i32,
) -> Reply
    ensures { Replies (change_under (parameters_of_lem places groups width step bits load pages multiplier) (record_of_lem expansions expanded growing steps)
        (held separators.now numbers.now words.old owners.now) unpooled caller number (position_of ra dec))
        (record_of_lem expansions expanded growing steps) result (held separators.now numbers.now words.new owners.now) unpooled }
{
    let parameters = Parameters {
        places,
        groups,
        width,
        step,
        bits,
        load,
        pages,
        multiplier,
    };
    let growth = record_of(expansions, expanded, growing, steps);
    let answer = starfile::change(
        parameters,
        growth,
        separators,
        numbers,
        words,
        owners,
        caller,
        number,
        Position { ra, dec },
    );
    reply_of(placed_answer(answer), growth)
}

#[unsafe(no_mangle)]
pub extern "C" fn heatherplane_remove(
    places: u32,
    groups: u32,
    width: u32,
    step: u32,
    bits: u32,
    load: u32,
    pages: u32,
    multiplier: u32,
    expansions: u32,
    expanded: u32,
    growing: u32,
    steps: u32,
    separators: &mut [u8],
    numbers: &mut [u32],
    words: &mut [u64],
    owners: &mut [u8],
    poolnumbers: &mut [u32],
    poolwords: &mut [u64],
    poolowners: &mut [u8],
    caller: u8,
    number: u32,
) -> Reply
    ensures { Replies (remove_under (parameters_of_lem places groups width step bits load pages multiplier) (record_of_lem expansions expanded growing steps)
        (before separators numbers words owners) (pool_before poolnumbers poolwords poolowners) caller number)
        (record_of_lem expansions expanded growing steps) result (after separators numbers words owners) (pool_after_lem poolnumbers poolwords poolowners) }
{
    let parameters = Parameters {
        places,
        groups,
        width,
        step,
        bits,
        load,
        pages,
        multiplier,
    };
    let growth = record_of(expansions, expanded, growing, steps);
    let answer = starfile::remove(
        parameters,
        growth,
        separators,
        numbers,
        words,
        owners,
        poolnumbers,
        poolwords,
        poolowners,
        caller,
        number,
    );
    reply_of(placed_answer(answer), growth)
}
