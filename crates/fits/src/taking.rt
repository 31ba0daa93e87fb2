// A table read into a file.
ghost use Rattle.std.specs.Prelude.{◌≡◌, ◌+◌, ◌*◌, ◌≤◌, length};
ghost use Rattle.placement.specs.Lent.{held, before, after};
ghost use Rattle.placement.specs.Ready.{Pooled};
ghost use Rattle.calls.specs.Answers.{Leaves, placed, cleared};
ghost use Rattle.calls.specs.Shape.{Stores};
ghost use Rattle.calls.specs.Lent.{pool_before, pool_after_lem};
ghost use Rattle.calls.specs.Shape.{Admitted};
ghost use Rattle.fits_table.specs.Header.{table_in};
ghost use Rattle.exchange.specs.Tables.{good_data, read_on, read_of, read_under};

use call_guard::{all_fit, at_rest, guard, turn_away};
use calls::answers::{Placed, Refusal};
use calls::records::GrowthRecord;
use fits_pages::place_rows;
use fits_table::cards::{Table, table_rows};
use fits_table::rows::{pad_zero, rows_good};
use hashing::{Geometry, Growth, Parameters};

// Whether the table's rows rise and are in range, and its pad is zeros.
fn data_good(given: &[u8], rows: usize) -> bool
    requires { (rows ≤ 32768) × (5760 + 12 * rows ≤ length given.now) }
    ensures { result ≡ good_data given.now rows }
{
    rows_good(given, 5760, rows) && pad_zero(given, 5760 + 12 * rows)
}

// The header and length first, then the rows and the pad, then whether all stars fit. The pool is scratch.
fn read_lent(
    parameters: Parameters,
    growth: Growth,
    separators: &mut [u8],
    numbers: &mut [u32],
    words: &mut [u64],
    owners: &mut [u8],
    poolnumbers: &mut [u32],
    poolwords: &mut [u64],
    poolowners: &mut [u8],
    given: &[u8],
) -> Placed
    requires admitted { Admitted parameters growth (held separators.old numbers.old words.old owners.old) }
    requires pooled { Pooled parameters poolnumbers.old poolwords.old poolowners.old }
    ensures { Stores (read_on parameters growth (before separators numbers words owners) (cleared (pool_before poolnumbers poolwords poolowners))
        given.now (table_in given.now)) (placed result) (after separators numbers words owners) }
{
    let told = table_rows(given);
    let Table::Rows(rows) = told else {
        return Placed::Refused(Refusal::BadHeader, 0);
    };
    if !data_good(given, rows) {
        return Placed::Refused(Refusal::BadRows, 0);
    }
    let geometry = Geometry { parameters, growth };
    let table = generator::first_multipliers(parameters.multiplier);
    if !place_rows(
        &table,
        geometry,
        separators,
        numbers,
        words,
        owners,
        poolnumbers,
        poolwords,
        given,
        rows,
    ) {
        return Placed::Refused(Refusal::Full, 0);
    }
    Placed::On(0, 0)
}

fn read_closed(
    parameters: Parameters,
    growth: Growth,
    separators: &mut [u8],
    numbers: &mut [u32],
    words: &mut [u64],
    owners: &mut [u8],
    poolnumbers: &mut [u32],
    poolwords: &mut [u64],
    poolowners: &mut [u8],
    given: &[u8],
) -> Placed
    ensures { Leaves (read_of parameters growth (before separators numbers words owners) (pool_before poolnumbers poolwords poolowners) given.now)
        (placed result) (after separators numbers words owners) (pool_after_lem poolnumbers poolwords poolowners) }
{
    let fits = all_fit(
        parameters,
        separators.len(),
        numbers.len(),
        words.len(),
        owners.len(),
        poolnumbers.len(),
        poolwords.len(),
        poolowners.len(),
    );
    if let Err(refusal) = guard(parameters, growth, fits) {
        return Placed::Refused(refusal, 0);
    }
    let answer = read_lent(
        parameters,
        growth,
        separators,
        numbers,
        words,
        owners,
        poolnumbers,
        poolwords,
        poolowners,
        given,
    );
    plan_transfer::clear(poolnumbers, poolwords, poolowners);
    answer
}

// The file is replaced by the table's stars, for the institute, under these parameters and growth state. What it held is not read.
pub fn read_table(
    parameters: Parameters,
    growth: GrowthRecord,
    separators: &mut [u8],
    numbers: &mut [u32],
    words: &mut [u64],
    owners: &mut [u8],
    poolnumbers: &mut [u32],
    poolwords: &mut [u64],
    poolowners: &mut [u8],
    given: &[u8],
) -> Placed
    ensures leaves { Leaves (read_under parameters growth (before separators numbers words owners) (pool_before poolnumbers poolwords poolowners) given.now)
        (placed result) (after separators numbers words owners) (pool_after_lem poolnumbers poolwords poolowners) }
{
    if !at_rest(growth) {
        return turn_away(
            parameters,
            growth,
            separators,
            numbers,
            words,
            owners,
            poolnumbers,
            poolwords,
            poolowners,
        );
    }
    read_closed(
        parameters,
        growth.state,
        separators,
        numbers,
        words,
        owners,
        poolnumbers,
        poolwords,
        poolowners,
        given,
    )
}
