// A row's number and position word by its source: the row plus 1, as in a plan.
ghost use Rattle.std.specs.Prelude.{◌≡◌, true, ◌+◌, ◌*◌, ◌≤◌, length, take, drop};
ghost use Rattle.plan_transfer.specs.Sources.{named_item};
ghost use Rattle.fits_table.specs.Rows.{good_rows};
ghost use Rattle.fits_pages.specs.Columns.{numbers_read, words_read};

use fits_table::rows::{Row, get_32, row_at};

// 0 for an empty place.
pub fn number_at(given: &[u8], rows: usize, source: u32) -> u32
    requires { (rows ≤ 32768) × (5760 + 12 * rows ≤ length given.now) }
    ensures { result ≡ named_item (numbers_read given.now rows) 0 source }
{
    let from = source as usize;
    if from == 0 {
        return 0;
    }
    if rows < from {
        return 0;
    }
    get_32(given, 5760 + 12 * (from - 1))
}

// The same of its position word.
pub fn word_at(given: &[u8], rows: usize, source: u32) -> u64
    requires rows_bound { (rows ≤ 32768) × (5760 + 12 * rows ≤ length given.now) }
    requires rows_value { good_rows 0 given.now 5760 rows ≡ true }
    ensures { result ≡ named_item (words_read given.now rows) 0 source }
{
    let from = source as usize;
    if from == 0 {
        return 0;
    }
    if rows < from {
        return 0;
    }
    match row_at(0, given, 5760 + 12 * (from - 1)) {
        Row::Star { number: _, word } => word,
        Row::Wrong => 0,
    }
}

// The numbers of `count` rows from row `first` on.
pub fn numbers_at(given: &[u8], rows: usize, first: usize, count: usize) -> [u32; 32]
    requires rows_bound { (rows ≤ 32768) × (5760 + 12 * rows ≤ length given.now) }
    requires count_bound { (first + count ≤ rows) × (count ≤ 32) }
    ensures { (length result ≡ 32) × (take count result ≡ take count (drop first (numbers_read given.now rows))) }
{
    let mut block = [0u32; 32];
    for i in 0..count {
        block[i] = get_32(given, 5760 + 12 * (first + i));
    }
    block
}
