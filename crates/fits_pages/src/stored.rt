// The rows planned over all pages, and stored where all of them fit.
ghost use Rattle.std.specs.Prelude.{◌≡◌, true, map, ◌+◌, ◌*◌, ◌≤◌, length, replicate};
ghost use Rattle.placement.specs.Lent.{held, before, after};
ghost use Rattle.placement.specs.Ready.{Homing, Ready, Pooled};
ghost use Rattle.page_plan.specs.Plans.{Planned};
ghost use Rattle.plan_transfer.specs.Sources.{named_item};
ghost use Rattle.fits_table.specs.Rows.{good_rows};
ghost use Rattle.fits_pages.specs.Columns.{numbers_read, words_read, PlansRows};
ghost use Rattle.fits_pages.specs.Placed.{Places};

use crate::columns::{number_at, word_at};
use crate::gathered::{key_rows, number_rows};
use hashing::Geometry;

// The plan of the rows over all pages: the sources in the pool, the separators in `planned`. The answer is whether all of them fit.
fn plan_rows(
    table: &[u32; 90],
    geometry: Geometry,
    given: &[u8],
    rows: usize,
    pool: &mut [u32],
    waiting: &mut [u64],
    planned: &mut [u8; 1024],
) -> bool
    requires homing { Homing geometry table.now }
    requires rows_bound { (rows ≤ 32768) × (5760 + 12 * rows ≤ length given.now) }
    requires rows_value { good_rows 0 given.now 5760 rows ≡ true }
    requires pool_len { (length pool.old ≡ geometry.parameters.pages * geometry.parameters.places) × (length waiting.old ≡ length pool.old) }
    requires rows_in_bounds { rows ≤ length pool.old }
    requires planned_len { length planned.old ≡ 1024 }
    ensures plans_rows { PlansRows geometry given.now rows pool.new planned.new result }
    ensures planned_len_2 { length planned.new ≡ 1024 }
{
    let pages = geometry.parameters.pages as usize;
    let mut ends = [0u32; 1024];
    key_rows(table, geometry, given, rows, pool);
    page_plan::gather_keys(pool, waiting, &mut ends, rows, pages);
    number_rows(given, waiting, rows);
    page_plan::place_all(geometry.parameters, pool, waiting, planned, &ends, rows)
}

// Each place gets the row that its source names, for the institute.
fn store_rows(
    given: &[u8],
    rows: usize,
    pool: &[u32],
    numbers: &mut [u32],
    words: &mut [u64],
    owners: &mut [u8],
)
    requires rows_bound { (rows ≤ 32768) × (5760 + 12 * rows ≤ length given.now) }
    requires rows_value { good_rows 0 given.now 5760 rows ≡ true }
    requires numbers_len { (length numbers.old ≡ length pool.now) × ((length words.old ≡ length pool.now) × (length owners.old ≡ length pool.now)) }
    ensures numbers_after { numbers.new ≡ map (named_item (numbers_read given.now rows) 0) pool.now }
    ensures words_after { words.new ≡ map (named_item (words_read given.now rows) 0) pool.now }
    ensures owners_after { owners.new ≡ replicate (length owners.old) 0 }
{
    for (i, source) in pool.iter().enumerate() {
        numbers[i] = number_at(given, rows, *source);
        words[i] = word_at(given, rows, *source);
    }
    buffers::fill(owners, 0);
}

// The file is replaced by the rows' stars, or left as it is where they do not fit. The pool is scratch.
pub fn place_rows(
    table: &[u32; 90],
    geometry: Geometry,
    separators: &mut [u8],
    numbers: &mut [u32],
    words: &mut [u64],
    owners: &mut [u8],
    pool: &mut [u32],
    waiting: &mut [u64],
    given: &[u8],
    rows: usize,
) -> bool
    requires ready { Ready geometry table.now (held separators.old numbers.old words.old owners.old) }
    requires pool_len { (length pool.old ≡ geometry.parameters.pages * geometry.parameters.places) × (length waiting.old ≡ length pool.old) }
    requires rows_bound { (rows ≤ 32768) × (5760 + 12 * rows ≤ length given.now) }
    requires rows_value { good_rows 0 given.now 5760 rows ≡ true }
    ensures { Places geometry given.now rows (before separators numbers words owners) (after separators numbers words owners) result }
{
    if pool.len() < rows {
        return false;
    }
    let mut planned = [0u8; 1024];
    if !plan_rows(table, geometry, given, rows, pool, waiting, &mut planned) {
        return false;
    }
    let pages = geometry.parameters.pages as usize;
    buffers::copy(separators, 0, &planned, 0, pages);
    store_rows(given, rows, pool, numbers, words, owners);
    true
}
