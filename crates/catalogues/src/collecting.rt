// The lines of a catalogue, collected block by block, and the table of their rows.
ghost use Rattle.std.specs.Prelude.{◌≡◌, true, ◌||◌, List, [], ◌∷◌, ℕ, ◌+◌, ◌*◌, ◌≤◌, ◌<◌, length};
ghost use Rattle.lines.specs.Grammar.{line_bytes};
ghost use Rattle.lines.specs.Programs.{opened, last_of, Stands};
ghost use Rattle.lines.specs.Replies.{TextAt};
ghost use Rattle.lines.specs.Shape.{lacked_by};
ghost use Rattle.catalogues.specs.Entries.{rows_held, added_to, is_refusal_lem, effect_text};
ghost use Rattle.catalogues.specs.Shape.{is_added};
ghost use Rattle.catalogues.specs.Runs.{line_after_lem, table_from, cataloguing, run_held, Proper, Fit};

use crate::entries::{Effect, line_effect};
use fits_table::table::put_table;
use lines::Line;

// What is kept from one byte of the input to the next, beside the columns of the rows.
#[derive(Clone, Copy)]
pub struct Collection {
    pub line: Line,
    pub count: usize,
    pub lines: u32,
    pub refused: bool,
}

// A collection, and the place in a lent buffer after the text so far.
#[derive(Clone, Copy)]
pub struct Collected {
    pub collection: Collection,
    pub at: usize,
}

pub fn start() -> Collection
    ensures by_index { (ns ws : List ℕ) → run_held result ns ws ≡ opened cataloguing }
    ensures by_index_2 { (ns ws : List ℕ) → length ns ≡ 32768 → length ws ≡ 32768 → Fit result ns ws }
{
    Collection {
        line: lines::blank_line(),
        count: 0,
        lines: 0,
        refused: false,
    }
}

fn put_effect(out: &mut [u8], at: usize, effect: Effect, line: u32) -> usize
    requires { at + 64 ≤ length out.old }
    ensures { (TextAt at (effect_text line effect) out.old out.new result) × (result ≤ at + 37) }
{
    match effect {
        Effect::Added { number: _, word: _ } | Effect::Repeated => at,
        Effect::Refused(refusal) => {
            let first = lines::put(out, at, b"no ");
            let second = lines::put_field(out, first, refusal, b' ');
            lines::put_field(out, second, line, b'\n')
        }
        Effect::Malformed => {
            let first = lines::put(out, at, b"bad ");
            lines::put_field(out, first, line, b'\n')
        }
    }
}

fn is_refusal(effect: Effect) -> bool
    ensures { result ≡ is_refusal_lem effect }
{
    matches!(effect, Effect::Refused(_) | Effect::Malformed)
}

// The row of an effect behind the others; the answer is how many there are then.
fn add(numbers: &mut [u32], words: &mut [u64], count: usize, effect: Effect) -> usize
    requires count_bound { (count ≤ 32768) × ((length numbers.old ≡ 32768) × (length words.old ≡ 32768)) }
    requires count_bound_2 { is_added effect ≡ true → count < 32768 }
    ensures words_after { rows_held result numbers.new words.new ≡ added_to (rows_held count numbers.old words.old) effect }
    ensures upper_bound { result ≤ 32768 }
{
    match effect {
        Effect::Added { number, word } => {
            numbers[count] = number;
            words[count] = word;
            count + 1
        }
        Effect::Repeated | Effect::Refused(_) | Effect::Malformed => count,
    }
}

// The line that is complete now.
fn end_line(
    collection: Collection,
    numbers: &mut [u32],
    words: &mut [u64],
    out: &mut [u8],
    at: usize,
) -> Collected
    requires fit { Fit collection numbers.old words.old }
    requires at_in_bounds { at + 64 ≤ length out.old }
    ensures fit_2 { Fit result.collection numbers.new words.new }
    ensures stands { (Stands cataloguing (run_held collection numbers.old words.old) (10 ∷ []) at
        out.old out.new (run_held result.collection numbers.new words.new) result.at)
        × (result.at ≤ at + 37) }
{
    let done = line_effect(numbers, words, collection.count, collection.line);
    let lines = collection.lines.saturating_add(1);
    let next = put_effect(out, at, done, lines);
    let count = add(numbers, words, collection.count, done);
    let refused = collection.refused || is_refusal(done);
    Collected {
        collection: Collection {
            line: lines::blank_line(),
            count,
            lines,
            refused,
        },
        at: next,
    }
}

fn take_byte(
    collection: Collection,
    byte: u8,
    numbers: &mut [u32],
    words: &mut [u64],
    out: &mut [u8],
    at: usize,
) -> Collected
    requires fit { Fit collection numbers.old words.old }
    requires at_in_bounds { at + 64 ≤ length out.old }
    ensures fit_2 { Fit result.collection numbers.new words.new }
    ensures stands { (Stands cataloguing (run_held collection numbers.old words.old) (byte ∷ []) at
        out.old out.new (run_held result.collection numbers.new words.new) result.at)
        × (result.at ≤ at + 37) }
{
    if byte == b'\n' {
        return end_line(collection, numbers, words, out, at);
    }
    let line = lines::push(collection.line, byte);
    Collected {
        collection: Collection { line, ..collection },
        at,
    }
}

// All lines that end in a block. A refused one puts out at most 37 bytes, so that 37 for each byte of the block and 64 are enough.
pub fn collect(
    collection: Collection,
    block: &[u8],
    numbers: &mut [u32],
    words: &mut [u64],
    out: &mut [u8],
) -> Collected
    requires fit { Fit collection numbers.old words.old }
    requires block_in_bounds { 37 * length block.now + 64 ≤ length out.old }
    ensures fit_2 { Fit result.collection numbers.new words.new }
    ensures stands { (Stands cataloguing (run_held collection numbers.old words.old) block.now 0
        out.old out.new (run_held result.collection numbers.new words.new) result.at)
        × (result.at ≤ 37 * length block.now) }
{
    let mut state = collection;
    let mut at = 0;
    for byte in block {
        let step = take_byte(state, *byte, numbers, words, out, at);
        state = step.collection;
        at = step.at;
    }
    Collected {
        collection: state,
        at,
    }
}

// The last line, where it lacks its newline.
fn close(
    collection: Collection,
    numbers: &mut [u32],
    words: &mut [u64],
    out: &mut [u8],
) -> Collected
    requires fit { Fit collection numbers.old words.old }
    requires in_bounds { 64 ≤ length out.old }
    ensures fit_2 { Fit result.collection numbers.new words.new }
    ensures stands { (Stands cataloguing (run_held collection numbers.old words.old)
        (lacked_by (line_bytes collection.line)) 0 out.old out.new
        (run_held result.collection numbers.new words.new) result.at)
        × (result.at ≤ 37) }
{
    if lines::is_blank(collection.line) {
        return Collected { collection, at: 0 };
    }
    end_line(collection, numbers, words, out, 0)
}

// The table of collected rows. The answer is its length.
fn put_rows(numbers: &[u32], words: &[u64], count: usize, out: &mut [u8]) -> usize
    requires count_bound { (count ≤ 32768) × ((length numbers.now ≡ 32768) × (length words.now ≡ 32768)) }
    requires proper { Proper (rows_held count numbers.now words.now) }
    requires in_bounds { 400320 ≤ length out.old }
    ensures { (TextAt 0 (table_from (rows_held count numbers.now words.now)) out.old out.new result) × (result ≤ 400320) }
{
    put_table(&numbers[..count], &words[..count], out, count as u32);
    5760 + (12 * count + 2879) / 2880 * 2880
}

// What is put out after the last block. The answer is its length.
pub fn finish(
    collection: Collection,
    numbers: &mut [u32],
    words: &mut [u64],
    out: &mut [u8],
) -> usize
    requires fit { Fit collection numbers.old words.old }
    requires in_bounds { 400320 ≤ length out.old }
    ensures { (TextAt 0 (last_of cataloguing (run_held collection numbers.old words.old))
        out.old out.new result) × (result ≤ 400320) }
{
    let last = close(collection, numbers, words, out);
    let all = last.collection;
    if all.refused {
        return last.at;
    }
    put_rows(numbers, words, all.count, out)
}
