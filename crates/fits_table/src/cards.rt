// The two headers, and the number of rows that they tell.
ghost use Rattle.std.specs.Prelude.{◌≡◌, ◌+◌, ◌*◌, ◌%◌, ◌≤◌, ◌<◌, length, take, drop};
ghost use Rattle.buffers.specs.Lists.{written};
ghost use Rattle.fits_table.specs.Header.{field, headers, digit_step_lem, candidate, table_in};
ghost use Rattle.fits_table.specs.Shape.{card_table, slot_card_lem, template};

use buffers::copy;

// The primary header's cards, the table's with an empty field of 20 for NAXIS2, and a blank one.
const CARDS: [[u8; 80]; 18] = [
    *b"SIMPLE  =                    T                                                  ",
    *b"BITPIX  =                    8                                                  ",
    *b"NAXIS   =                    0                                                  ",
    *b"EXTEND  =                    T                                                  ",
    *b"END                                                                             ",
    *b"XTENSION= 'BINTABLE'                                                            ",
    *b"BITPIX  =                    8                                                  ",
    *b"NAXIS   =                    2                                                  ",
    *b"NAXIS1  =                   12                                                  ",
    *b"NAXIS2  =                                                                       ",
    *b"PCOUNT  =                    0                                                  ",
    *b"GCOUNT  =                    1                                                  ",
    *b"TFIELDS =                    3                                                  ",
    *b"TFORM1  = '1J      '                                                            ",
    *b"TFORM2  = '1J      '                                                            ",
    *b"TFORM3  = '1J      '                                                            ",
    *b"END                                                                             ",
    *b"                                                                                ",
];

// What a header and a length tell.
#[derive(Clone, Copy)]
pub enum Table {
    Rows(usize),
    Nothing,
}

// The card of one of the 72 places of a card in the two headers.
fn slot_card(slot: usize) -> usize
    ensures { result ≡ slot_card_lem slot }
{
    if slot < 5 {
        return slot;
    }
    if slot < 36 {
        return 17;
    }
    if slot < 48 {
        return slot - 31;
    }
    17
}

fn card_of(cards: &[[u8; 80]; 18], slot: usize) -> [u8; 80]
    requires slot_bound { slot < 72 }
    requires cards_value { cards.now ≡ card_table }
    ensures { result ≡ take 80 (drop (80 * slot) template) }
{
    cards[slot_card(slot)]
}

fn put_template(out: &mut [u8])
    requires { 5760 ≤ length out.old }
    ensures { out.new ≡ written 0 template out.old }
{
    let cards = CARDS;
    for slot in 0..72 {
        let card = card_of(&cards, slot);
        copy(out, 80 * slot, &card, 0, 80);
    }
}

// Right-justified in a field of 20 without leading zeros.
fn put_field(out: &mut [u8], at: usize, value: u32)
    requires { at + 20 ≤ length out.old }
    ensures { out.new ≡ written at (field value) out.old }
{
    out[at + 19] = digit(value);
    let mut rest = value / 10;
    for i in (0..19).rev() {
        out[at + i] = if rest == 0 { b' ' } else { digit(rest) };
        rest /= 10;
    }
}

fn digit(value: u32) -> u8
    ensures { result ≡ 48 + value % 10 }
{
    48 + (value % 10) as u8
}

pub fn put_headers(out: &mut [u8], rows: u32)
    requires { 5760 ≤ length out.old }
    ensures { out.new ≡ written 0 (headers rows) out.old }
{
    put_template(out);
    put_field(out, 3210, rows);
}

fn digit_step(value: u32, byte: u8) -> u32
    requires { value < 400000 }
    ensures { result ≡ digit_step_lem value byte }
{
    if 32768 < value {
        return value;
    }
    if byte < 48 {
        return value;
    }
    if 57 < byte {
        return value;
    }
    10 * value + (byte - 48) as u32
}

// What the field's digits would mean. The headers are compared whole afterwards.
fn candidate_rows(given: &[u8]) -> u32
    requires { 5760 ≤ length given.now }
    ensures { result ≡ candidate given.now }
{
    let mut value = 0;
    for byte in &given[3210..3230] {
        value = digit_step(value, *byte);
    }
    value
}

// The rows of a table that a writer can put out, told by its headers and its length.
pub fn table_rows(given: &[u8]) -> Table
    ensures { result ≡ table_in given.now }
{
    if given.len() < 5760 {
        return Table::Nothing;
    }
    let rows = candidate_rows(given);
    if 32768 < rows {
        return Table::Nothing;
    }
    let mut expected = [0u8; 5760];
    put_headers(&mut expected, rows);
    if given[..5760] != expected[..] {
        return Table::Nothing;
    }
    let count = rows as usize;
    if given.len() != 5760 + (12 * count + 2879) / 2880 * 2880 {
        return Table::Nothing;
    }
    Table::Rows(count)
}
