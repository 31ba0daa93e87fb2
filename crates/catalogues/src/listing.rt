// A table's rows as lines.
ghost use Rattle.std.specs.Prelude.{◌≡◌, true, ◌++◌, ◌+◌, ◌*◌, ◌≤◌, ◌<◌, length, take};
ghost use Rattle.lines.specs.Replies.{TextAt};
ghost use Rattle.pages.specs.Position.{valid_word};
ghost use Rattle.fits_table.specs.Rows.{good_rows, rows_read};
ghost use Rattle.catalogues.specs.Listing.{is_table, kept_table, row_line, row_lines, refusal_line, at_first_lem, part_of};
ghost use Rattle.catalogues.specs.Shape.{line_at};

use fits_table::cards::{Table, table_rows};
use fits_table::rows::{Row, pad_zero, row_at, rows_good};
use pages::position::unpack;

// No line of a catalogue begins as a table does.
pub fn begins_table(block: &[u8]) -> bool
    ensures { result ≡ is_table block.now }
{
    if block.len() == 0 {
        return false;
    }
    block[0] == b'S'
}

// A block behind the `at` bytes kept of the input so far; more than the longest table and a byte are not kept.
pub fn keep(given: &mut [u8], at: usize, block: &[u8]) -> usize
    requires { (at ≤ 400321) × (400321 ≤ length given.old) }
    ensures { (result ≤ 400321) × (take result given.new ≡ kept_table (take at given.old ++ block.now)) }
{
    let n = block.len().min(400321 - at);
    buffers::copy(given, at, block, 0, n);
    at + n
}

// `E number ra dec` of one row.
fn put_line(out: &mut [u8], at: usize, number: u32, word: u64) -> usize
    requires at_in_bounds { at + 36 ≤ length out.old }
    requires word_value { valid_word word ≡ true }
    ensures { (TextAt at (row_line number word) out.old out.new result) × (result ≤ at + 36) }
{
    let position = unpack(word);
    let first = lines::put(out, at, b"E ");
    let second = lines::put_field(out, first, number, b' ');
    let third = lines::put_field(out, second, position.ra, b' ');
    lines::put_declination(out, third, position.dec)
}

// The line of row i.
fn put_row(given: &[u8], rows: usize, i: usize, out: &mut [u8], at: usize) -> usize
    requires rows_bound { (rows ≤ 32768) × (5760 + 12 * rows ≤ length given.now) }
    requires rows_value { good_rows 0 given.now 5760 rows ≡ true }
    requires i_lt_rows { (i < rows) × (at + 36 ≤ length out.old) }
    ensures { (TextAt at (line_at given.now (5760 + 12 * i)) out.old out.new result) × (result ≤ at + 36) }
{
    match row_at(0, given, 5760 + 12 * i) {
        Row::Star { number, word } => put_line(out, at, number, word),
        Row::Wrong => at,
    }
}

// The lines of `count` rows from row `first` on.
fn put_lines(given: &[u8], rows: usize, first: usize, count: usize, out: &mut [u8]) -> usize
    requires rows_bound { (rows ≤ 32768) × (5760 + 12 * rows ≤ length given.now) }
    requires rows_value { good_rows 0 given.now 5760 rows ≡ true }
    requires count_bound { (first + count ≤ rows) × (36 * count + 64 ≤ length out.old) }
    ensures { (TextAt 0 (row_lines (rows_read given.now (5760 + 12 * first) count)) out.old out.new result) × (result ≤ 36 * count) }
{
    let mut at = 0;
    for row in first..first + count {
        at = put_row(given, rows, row, out, at);
    }
    at
}

// With the first part.
fn refuse(refusal: u32, part: usize, out: &mut [u8]) -> usize
    requires { 64 ≤ length out.old }
    ensures { (TextAt 0 (at_first_lem part (refusal_line refusal)) out.old out.new result) × (result ≤ 64) }
{
    if part != 0 {
        return 0;
    }
    let first = lines::put(out, 0, b"no ");
    let second = lines::put_field(out, first, refusal, b' ');
    lines::put_field(out, second, 0, b'\n')
}

// What is put out for a table, or for what is none, in four parts of at most 8,192 lines.
pub fn list(given: &[u8], part: usize, out: &mut [u8]) -> usize
    requires { (part ≤ 3) × (36 * 8192 + 64 ≤ length out.old) }
    ensures { (TextAt 0 (part_of part given.now) out.old out.new result) × (result ≤ 36 * 8192) }
{
    let Table::Rows(rows) = table_rows(given) else {
        return refuse(10, part, out);
    };
    if !rows_good(given, 5760, rows) {
        return refuse(11, part, out);
    }
    if !pad_zero(given, 5760 + 12 * rows) {
        return refuse(11, part, out);
    }
    let first = rows.min(8192 * part);
    let count = (rows - first).min(8192);
    put_lines(given, rows, first, count, out)
}
