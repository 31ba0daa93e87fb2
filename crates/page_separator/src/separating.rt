// A page's separator, from the counts of the signatures.
ghost use Rattle.std.specs.Prelude.{◌≡◌, ℕ, ◌+◌, ◌≤◌, ◌<◌, length};
ghost use Rattle.std.proofs.Math.Seq.{slice};
ghost use Rattle.placement.specs.Ready.{Signers};
ghost use Rattle.page_separator.specs.Lists.{sum_to};
ghost use Rattle.page_separator.specs.Probes.{Probing, Signed, Signable, words_separator_from};

use crate::signatures::tally_signatures;
use hashing::Parameters;
use placement::top_of;

// How many are counted below `most`, of `all` that are counted below `top`.
fn counted_below(counts: &[u16; 256], all: usize, most: u32, top: u32) -> usize
    requires most_bound { (most ≤ 255) × ((top ≤ 255) × (all ≤ 32768)) }
    requires by_index { (v : ℕ) → top ≤ v → v ≤ 256 → sum_to v counts.now ≡ all }
    ensures { result ≡ sum_to most counts.now }
{
    let mut below = all;
    for v in (most..top).rev() {
        below -= counts[v as usize] as usize;
    }
    below
}

// The greatest v up to `top` with at most `room` counted below it. Most pages pass on few words, so it is looked for from the top.
fn cut(counts: &[u16; 256], top: u32, all: usize, room: usize) -> u32
    requires { (top ≤ 255) × ((all ≡ sum_to top counts.now) × (all ≤ 32768)) }
    ensures upper_bound { (result ≤ top) × (sum_to result counts.now ≤ room) }
    ensures room_bound { result < top → room < sum_to (result + 1) counts.now }
{
    let mut below = all;
    let mut v = top;
    // Stays: the count that is left ends the loop, and v is the answer.
    while room < below {
        v -= 1;
        below -= counts[v as usize] as usize;
    }
    v
}

// The greatest separator up to `most` under which there is room for the words that stay. The signatures of the last words are kept.
pub fn separator_under(
    table: &[u32],
    parameters: Parameters,
    most: u32,
    waiting: &[u64],
    from: usize,
    reach: usize,
    page: usize,
    signatures: &mut [u8; 256],
) -> u32
    requires signers { Signers parameters table.now }
    requires probing { Probing page from reach waiting.now }
    requires most_bound { (most ≤ 255) × (length signatures.old ≡ 256) }
    requires signable { Signable (length table.now) page from reach waiting.now }
    ensures value { result ≡ words_separator_from parameters page (slice from reach waiting.now) most }
    ensures signed { Signed parameters page from reach waiting.now signatures.new }
{
    let mut counts = [0u16; 256];
    tally_signatures(
        table,
        parameters,
        waiting,
        from,
        reach,
        page,
        &mut counts,
        signatures,
    );
    let below = counted_below(&counts, reach - from, most, top_of(parameters) as u32);
    cut(&counts, most, below, parameters.places as usize)
}
