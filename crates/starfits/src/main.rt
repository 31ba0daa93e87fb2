// Reads all of its standard input, whatever its length: lines, for which it writes a table, or a table, for which it writes lines.

#![tactic(auto)]

ghost use Rattle.std.specs.Prelude.{◌≡◌, ◌≤◌, ◌++◌, length, take, IfOk, OnOk, IfSome};
ghost use Rattle.std.specs.Option.{unwrap_or};
ghost use Rattle.std.specs.Io.KnownBytes.{Appends, IsAtEnd};
ghost use Rattle.lines.specs.Programs.{runs, text_for};
ghost use Rattle.lines.specs.Streams.{Serves};
ghost use Rattle.catalogues.specs.Listing.{listed, part_of, kept_table, converted};
ghost use Rattle.catalogues.specs.Runs.{cataloguing, from_lines, run_held, Fit};
ghost use Rattle.starfits.specs.Keeping.{Keeps};

use catalogues::Collection;
use std::io;
use std::io::{Read, Write};

fn main(rt: HostRuntime) -> io::Result<()> {
    convert(&mut rt.stdin(), &mut rt.stdout())
}

// What a reader's bytes are converted to, in whatever blocks they come, goes to a writer.
fn convert<R: Read, W: Write>(reader: &mut R, writer: &mut W) -> io::Result<()>
    ensures { OnOk result (IfSome (R.remaining reader.old)
        (λ input. Appends (W.contents writer.old) (W.contents writer.new) (converted input))) }
{
    let mut block = [0u8; 4096];
    let n = reader.read(&mut block)?;
    if catalogues::begins_table(&block[..n]) {
        list_table(&block[..n], reader, writer)?;
        return Ok(());
    }
    make_table(&block[..n], reader, writer)?;
    Ok(())
}

fn list_table<R: Read, W: Write>(first: &[u8], reader: &mut R, writer: &mut W) -> io::Result<()>
    ensures { OnOk result (IfSome (R.remaining reader.old)
        (λ rest. Appends (W.contents writer.old) (W.contents writer.new) (listed (first.now ++ rest)))) }
{
    let mut given = table_space();
    let begun = catalogues::keep(&mut given, 0, first);
    let length = keep_all(&mut given, begun, reader)?;
    list_all(&given[..length], writer)?;
    Ok(())
}

fn list_all<W: Write>(given: &[u8], writer: &mut W) -> io::Result<()>
    ensures { OnOk result (Appends (W.contents writer.old) (W.contents writer.new) (listed given.now)) }
{
    for part in 0..4 {
        list_part(given, part, writer)?;
    }
    Ok(())
}

fn list_part<W: Write>(given: &[u8], part: usize, writer: &mut W) -> io::Result<()>
    requires { part ≤ 3 }
    ensures { OnOk result (Appends (W.contents writer.old) (W.contents writer.new) (part_of part given.now)) }
{
    let mut out = table_space();
    let at = catalogues::list(given, part, &mut out);
    writer.write_all(&out[..at])?;
    Ok(())
}

// Room for the longest table and more, or for a part of its lines. Of the three only the length is told, which lending them needs.
// Stays: with one generic function of item and length, each of the five callers would write both.
fn table_space() -> [u8; 400384]
    ensures { 400384 ≡ length result }
{
    [0u8; 400384]
}

fn number_space() -> [u32; 32768]
    ensures { 32768 ≡ length result }
{
    [0u32; 32768]
}

fn word_space() -> [u64; 32768]
    ensures { 32768 ≡ length result }
{
    [0u64; 32768]
}

// A proved loop has to end, and nothing says that the input does: there are more turns than any run uses up.
fn keep_all<R: Read>(given: &mut [u8], begun: usize, reader: &mut R) -> io::Result<usize>
    requires { (begun ≤ 400321) × (400321 ≤ length given.old) }
    ensures in_bounds { IfOk result (λ n. n ≤ 400321) }
    ensures keeps { IfOk result (λ n. IfSome (R.remaining reader.old)
        (λ rest. take n given.new ≡ kept_table (take begun given.old ++ rest))) }
{
    let mut kept = begun;
    for _ in 0..u64::MAX {
        let next = keep_some(given, kept, reader)?;
        if next == kept {
            return Ok(kept);
        }
        kept = next;
    }
    Err(io::Error::other("the input does not end"))
}

// Reads once; nothing more is kept once the input has ended or is too long for a table.
fn keep_some<R: Read>(given: &mut [u8], kept: usize, reader: &mut R) -> io::Result<usize>
    requires { (kept ≤ 400321) × (400321 ≤ length given.old) }
    ensures in_bounds { IfOk result (λ n. n ≤ 400321) }
    ensures keeps { IfOk result (λ n. Keeps given.old given.new kept n (R.remaining reader.old) (R.remaining reader.new)) }
    ensures end { IfOk result (λ n. n ≡ kept → IfSome (R.remaining reader.old)
        (λ rest. take n given.new ≡ kept_table (take kept given.old ++ rest))) }
{
    let mut block = [0u8; 4096];
    let n = reader.read(&mut block)?;
    Ok(catalogues::keep(given, kept, &block[..n]))
}

fn make_table<R: Read, W: Write>(first: &[u8], reader: &mut R, writer: &mut W) -> io::Result<()>
    requires { length first.now ≤ 4096 }
    ensures { OnOk result (IfSome (R.remaining reader.old)
        (λ rest. Appends (W.contents writer.old) (W.contents writer.new) (from_lines (first.now ++ rest)))) }
{
    let mut numbers = number_space();
    let mut words = word_space();
    let mut out = table_space();
    let start = catalogues::start();
    let begun = collect(start, first, &mut numbers, &mut words, &mut out, writer)?;
    let all = collect_all(begun, &mut numbers, &mut words, &mut out, reader, writer)?;
    let at = catalogues::finish(all, &mut numbers, &mut words, &mut out);
    writer.write_all(&out[..at])?;
    Ok(())
}

// Collects a block, and writes its refusals.
fn collect<W: Write>(
    collection: Collection,
    block: &[u8],
    numbers: &mut [u32],
    words: &mut [u64],
    out: &mut [u8],
    writer: &mut W,
) -> io::Result<Collection>
    requires fit { Fit collection numbers.old words.old }
    requires block_len_bound { (length block.now ≤ 4096) × (400320 ≤ length out.old) }
    ensures fit_2 { IfOk result (λ c. Fit c numbers.new words.new) }
    ensures goes_on { IfOk result (λ c. run_held c numbers.new words.new
        ≡ runs cataloguing (run_held collection numbers.old words.old) block.now) }
    ensures written { OnOk result (Appends (W.contents writer.old) (W.contents writer.new)
        (text_for cataloguing (run_held collection numbers.old words.old) block.now)) }
{
    let collected = catalogues::collect(collection, block, numbers, words, out);
    let at = collected.at;
    writer.write_all(&out[..at])?;
    Ok(collected.collection)
}

fn collect_all<R: Read, W: Write>(
    collection: Collection,
    numbers: &mut [u32],
    words: &mut [u64],
    out: &mut [u8],
    reader: &mut R,
    writer: &mut W,
) -> io::Result<Collection>
    requires fit { Fit collection numbers.old words.old }
    requires in_bounds { 400320 ≤ length out.old }
    ensures fit_2 { IfOk result (λ c. Fit c numbers.new words.new) }
    ensures serves { IfOk result (λ c. Serves cataloguing
        (run_held collection numbers.old words.old) (run_held c numbers.new words.new)
        (R.remaining reader.old) (R.remaining reader.new) (W.contents writer.old) (W.contents writer.new)) }
    ensures end { OnOk result (IsAtEnd (R.remaining reader.new)) }
{
    let mut state = collection;
    for _ in 0..u64::MAX {
        let Some(next) = collect_some(state, numbers, words, out, reader, writer)? else {
            return Ok(state);
        };
        state = next;
    }
    Err(io::Error::other("the input does not end"))
}

// Reads once, and collects what came; nothing has come where the input has ended.
fn collect_some<R: Read, W: Write>(
    collection: Collection,
    numbers: &mut [u32],
    words: &mut [u64],
    out: &mut [u8],
    reader: &mut R,
    writer: &mut W,
) -> io::Result<Option<Collection>>
    requires fit { Fit collection numbers.old words.old }
    requires in_bounds { 400320 ≤ length out.old }
    ensures fit_2 { IfOk result (λ t. Fit (unwrap_or t collection) numbers.new words.new) }
    ensures serves { IfOk result (λ t. Serves cataloguing
        (run_held collection numbers.old words.old) (run_held (unwrap_or t collection) numbers.new words.new)
        (R.remaining reader.old) (R.remaining reader.new) (W.contents writer.old) (W.contents writer.new)) }
    ensures end { IfOk result (λ t. t ≡ None → IsAtEnd (R.remaining reader.new)) }
{
    let mut block = [0u8; 4096];
    let n = reader.read(&mut block)?;
    if n == 0 {
        return Ok(None);
    }
    let after = collect(collection, &block[..n], numbers, words, out, writer)?;
    Ok(Some(after))
}
