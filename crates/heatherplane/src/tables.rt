// A file's stars as a FITS table, written and read.
ghost use Rattle.placement.specs.Lent.{held, before, after};
ghost use Rattle.calls.specs.Lent.{pool_before, pool_after_lem};
ghost use Rattle.exchange.specs.Tables.{write_under, read_under};
ghost use Rattle.heatherplane.specs.Reply.{Replies, RepliesTable, parameters_of_lem, record_of_lem};

use crate::replies::{Reply, record_of, reply_of};
use calls::answers::placed_answer;
use fits::written_answer;
use hashing::Parameters;

// The reply has the table's length as its stars.
#[unsafe(no_mangle)]
pub extern "C" fn heatherplane_write_table(
    places: u32,
    groups: u32,
    width: u32,
    step: u32,
    bits: u32,
    load: u32,
    pages: u32,
    multiplier: u32,
    expansions: u32,
    expanded: u32,
    growing: u32,
    steps: u32,
    separators: &[u8],
    numbers: &[u32],
    words: &[u64],
    owners: &[u8],
    out: &mut [u8],
) -> Reply
    ensures { RepliesTable (write_under (parameters_of_lem places groups width step bits load pages multiplier) (record_of_lem expansions expanded growing steps)
        (held separators.now numbers.now words.now owners.now) out.old) (record_of_lem expansions expanded growing steps) result out.new }
{
    let parameters = Parameters {
        places,
        groups,
        width,
        step,
        bits,
        load,
        pages,
        multiplier,
    };
    let growth = record_of(expansions, expanded, growing, steps);
    let answer = fits::write_table(parameters, growth, separators, numbers, words, owners, out);
    reply_of(written_answer(answer), growth)
}

#[unsafe(no_mangle)]
pub extern "C" fn heatherplane_read_table(
    places: u32,
    groups: u32,
    width: u32,
    step: u32,
    bits: u32,
    load: u32,
    pages: u32,
    multiplier: u32,
    expansions: u32,
    expanded: u32,
    growing: u32,
    steps: u32,
    separators: &mut [u8],
    numbers: &mut [u32],
    words: &mut [u64],
    owners: &mut [u8],
    poolnumbers: &mut [u32],
    poolwords: &mut [u64],
    poolowners: &mut [u8],
    given: &[u8],
) -> Reply
    ensures { Replies (read_under (parameters_of_lem places groups width step bits load pages multiplier) (record_of_lem expansions expanded growing steps)
        (before separators numbers words owners) (pool_before poolnumbers poolwords poolowners) given.now)
        (record_of_lem expansions expanded growing steps) result (after separators numbers words owners) (pool_after_lem poolnumbers poolwords poolowners) }
{
    let parameters = Parameters {
        places,
        groups,
        width,
        step,
        bits,
        load,
        pages,
        multiplier,
    };
    let growth = record_of(expansions, expanded, growing, steps);
    let answer = fits::read_table(
        parameters,
        growth,
        separators,
        numbers,
        words,
        owners,
        poolnumbers,
        poolwords,
        poolowners,
        given,
    );
    reply_of(placed_answer(answer), growth)
}
