// The rows of a table as waiting words, grouped by home: document 01's homes, 32 rows at a time.
ghost use Rattle.std.specs.Prelude.{◌≡◌, true, map, ◌+◌, ◌*◌, ◌^◌, ◌≤◌, ◌<◌, length, take};
ghost use Rattle.std.proofs.Math.Seq.{paste};
ghost use Rattle.placement.specs.Ready.{Homing};
ghost use Rattle.page_separator.specs.Lists.{all_below};
ghost use Rattle.page_plan.specs.Sources.{numbered};
ghost use Rattle.fits_pages.specs.Columns.{numbers_read, keys_from, row_keys};

use crate::columns::{number_at, numbers_at};
use hashing::Geometry;

// Keys of home and source, of `count` rows from row `first` on.
fn put_keys(keys: &mut [u32], homes: &[u16; 32], first: usize, count: usize)
    requires count_in_bounds { (first + count ≤ length keys.old) × (count ≤ 32) }
    requires count_bound { (first + count ≤ 32768) × (count ≤ length homes.now) }
    ensures { keys.new ≡ paste keys.old first (keys_from first homes.now) count }
{
    for i in 0..count {
        keys[first + i] = u32::from(homes[i]) * 65536 + (first + i + 1) as u32;
    }
}

// The keys of all rows.
pub fn key_rows(table: &[u32; 90], geometry: Geometry, given: &[u8], rows: usize, keys: &mut [u32])
    requires homing { Homing geometry table.now }
    requires rows_bound { (rows ≤ 32768) × (5760 + 12 * rows ≤ length given.now) }
    requires rows_in_bounds { rows ≤ length keys.old }
    ensures { keys.new ≡ paste keys.old 0 (row_keys geometry given.now rows) rows }
{
    let mut first = 0;
    while first < rows {
        let count = (rows - first).min(32);
        let block = numbers_at(given, rows, first, count);
        let mut homes = [0u16; 32];
        homes::of_page(table, geometry, &block, count, &mut homes);
        put_keys(keys, &homes, first, count);
        first += count;
    }
}

// The words get the numbers of the rows that their sources name.
pub fn number_rows(given: &[u8], waiting: &mut [u64], rows: usize)
    requires rows_bound { (rows ≤ 32768) × (5760 + 12 * rows ≤ length given.now) }
    requires rows_in_bounds { rows ≤ length waiting.old }
    requires waiting_value { all_below (2 ^ 57) (take rows waiting.old) ≡ true }
    ensures { waiting.new ≡ paste waiting.old 0 (map (numbered (numbers_read given.now rows)) waiting.old) rows }
{
    for word in &mut waiting[..rows] {
        let number = number_at(given, rows, (*word % 65536) as u32);
        *word += u64::from(number) * 65536;
    }
}
