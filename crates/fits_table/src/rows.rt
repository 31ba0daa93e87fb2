// One row of the table, and the pad behind the rows.
ghost use Rattle.std.specs.Prelude.{true, ◌≡◌, ◌+◌, ◌*◌, ◌≤◌, ◌<◌, ◌%◌, length, drop};
ghost use Rattle.buffers.specs.Lists.{written};
ghost use Rattle.pages.specs.Page.{empties};
ghost use Rattle.pages.specs.Position.{valid_word};
ghost use Rattle.fits_table.specs.Rows.{be32, from32, row_bytes, row_at, good_rows};

use pages::position::number_valid;

// A row as a star's number and word.
#[derive(Clone, Copy)]
pub enum Row {
    Star { number: u32, word: u64 },
    Wrong,
}

pub fn put_32(out: &mut [u8], at: usize, value: u32)
    requires { at + 4 ≤ length out.old }
    ensures { out.new ≡ written at (be32 value) out.old }
{
    out[at..at + 4].copy_from_slice(&value.to_be_bytes());
}

pub fn put_row(out: &mut [u8], at: usize, number: u32, word: u64)
    requires at_in_bounds { at + 12 ≤ length out.old }
    requires word_value { valid_word word ≡ true }
    ensures { out.new ≡ written at (row_bytes number word) out.old }
{
    let ra = (word / 4294967296) as u32;
    let dec = lowered((word % 4294967296) as u32);
    put_32(out, at, number);
    put_32(out, at + 4, ra);
    put_32(out, at + 8, dec);
}

// The raised declination's 32 bits in two's complement.
fn lowered(raised: u32) -> u32
    requires { raised ≤ 648000000 }
    ensures { result ≡ (raised + 3970967296) % 4294967296 }
{
    if raised < 324000000 {
        return raised + 3970967296;
    }
    raised - 324000000
}

pub fn get_32(given: &[u8], at: usize) -> u32
    requires { at + 4 ≤ length given.now }
    ensures { result ≡ from32 given.now at }
{
    u32::from_be_bytes([given[at], given[at + 1], given[at + 2], given[at + 3]])
}

// The row at byte `at` after the row of number `last`.
pub fn row_at(last: u32, given: &[u8], at: usize) -> Row
    requires { at + 12 ≤ length given.now }
    ensures { result ≡ row_at last given.now at }
{
    let number = get_32(given, at);
    let ra = get_32(given, at + 4);
    let dec = get_32(given, at + 8);
    if number <= last {
        return Row::Wrong;
    }
    if !number_valid(number) {
        return Row::Wrong;
    }
    if 1295999999 < ra {
        return Row::Wrong;
    }
    let raised = (dec as u64 + 324000000) % 4294967296;
    if 648000000 < raised {
        return Row::Wrong;
    }
    Row::Star {
        number,
        word: ra as u64 * 4294967296 + raised,
    }
}

// Only zeros from byte `from` on.
pub fn pad_zero(given: &[u8], from: usize) -> bool
    requires { from ≤ length given.now }
    ensures { result ≡ empties (drop from given.now) }
{
    given[from..].iter().all(|byte| *byte == 0)
}

// No row of the `count` rows from byte `at` on is out of order or range.
pub fn rows_good(given: &[u8], at: usize, count: usize) -> bool
    requires count_bound { count ≤ 32768 }
    requires count_in_bounds { at + 12 * count ≤ length given.now }
    ensures { result ≡ good_rows 0 given.now at count }
{
    let mut last = 0;
    for i in 0..count {
        let Row::Star { number, word: _ } = row_at(last, given, at + 12 * i) else {
            return false;
        };
        last = number;
    }
    true
}
