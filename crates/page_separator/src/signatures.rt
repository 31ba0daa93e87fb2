// The signatures of the words that probe a page, and their counts.
ghost use Rattle.std.specs.Prelude.{◌≡◌, true, ℕ, ◌+◌, ◌-◌, ◌*◌, ◌%◌, ◌≤◌, ◌<◌, length, get_or};
ghost use Rattle.std.proofs.Math.Seq.{slice};
ghost use Rattle.hashing.specs.Limits.{valid_parameters};
ghost use Rattle.placement.specs.Ready.{Signers};
ghost use Rattle.page_separator.specs.Lists.{having};
ghost use Rattle.page_separator.specs.Words.{home_of};
ghost use Rattle.page_separator.specs.Probes.{Probing, Signed, Signable, factor_of, signature_of};

use crate::words::{home_of, number_of, pack};
use hashing::Parameters;

// The multiplier of the signatures on the probe-th page probed: entry 2·probe of the table, counted from 0.
#[derive(Clone, Copy)]
pub struct Factor {
    pub probe: usize,
    pub value: u32,
}

pub fn first_factor(table: &[u32], parameters: Parameters) -> Factor
    requires { Signers parameters table.now }
    ensures { result ≡ factor_of parameters 1 }
{
    let value = table[2];
    Factor { probe: 1, value }
}

// Words of one home mostly come one after the other, so that the last one's factor is the next one's.
pub fn factor_for(
    table: &[u32],
    parameters: Parameters,
    last: Factor,
    page: usize,
    word: u64,
) -> Factor
    requires signers { Signers parameters table.now }
    requires last_value { last ≡ factor_of parameters last.probe }
    requires word_bound { (home_of word ≤ page) × (page < 1024) }
    requires word_in_bounds { 2 * (page - home_of word + 1) < length table.now }
    ensures { result ≡ factor_of parameters (page - home_of word + 1) }
{
    let probe = page - home_of(word) as usize + 1;
    if probe == last.probe {
        return last;
    }
    let value = table[2 * probe];
    Factor { probe, value }
}

pub fn signature_of(parameters: Parameters, factor: Factor, page: usize, word: u64) -> u32
    requires parameters_value { valid_parameters parameters ≡ true }
    requires factor_value { factor ≡ factor_of parameters (page - home_of word + 1) }
    ensures { result ≡ signature_of parameters page word }
{
    generator::signature_by(factor.value, parameters.bits, number_of(word))
}

// Whether no word is 44 pages or more above its home, so that the first ninety multipliers sign all of them on the page.
pub fn all_near(waiting: &[u64], from: usize, reach: usize, page: usize) -> bool
    requires { Probing page from reach waiting.now }
    ensures { result ≡ true → Signable 90 page from reach waiting.now }
{
    if page < 44 {
        return true;
    }
    let least = pack((page - 43) as u32, 0, 0);
    waiting[from..reach].iter().all(|word| least <= *word)
}

// How many words have each signature; those of the last 256 words are kept.
#[tactic(auto, using(crate::proofs::Cutting::signature_byte))]
pub fn tally_signatures(
    table: &[u32],
    parameters: Parameters,
    waiting: &[u64],
    from: usize,
    reach: usize,
    page: usize,
    counts: &mut [u16; 256],
    signatures: &mut [u8; 256],
)
    requires signers { Signers parameters table.now }
    requires probing { Probing page from reach waiting.now }
    requires counts_len { (length counts.old ≡ 256) × ((v : ℕ) → v < 256 → get_or counts.old v 0 ≡ 0) }
    requires signatures_len { length signatures.old ≡ 256 }
    requires signable { Signable (length table.now) page from reach waiting.now }
    ensures counts_len_2 { length counts.new ≡ 256 }
    ensures by_index { (v : ℕ) → v < 256 → get_or counts.new v 0 ≡ length (having (signature_of parameters page) v (slice from reach waiting.now)) }
    ensures signed { Signed parameters page from reach waiting.now signatures.new }
{
    let mut factor = first_factor(table, parameters);
    for i in from..reach {
        let word = waiting[i];
        factor = factor_for(table, parameters, factor, page, word);
        let signature = signature_of(parameters, factor, page, word);
        counts[signature as usize] += 1;
        signatures[i % 256] = signature as u8;
    }
}

// The signature that is kept of word i.
pub fn signature_kept(
    parameters: Parameters,
    signatures: &[u8; 256],
    page: usize,
    i: usize,
    word: u64,
) -> u32
    requires parameters_value { valid_parameters parameters ≡ true }
    requires i_value { get_or signatures.now (i % 256) 0 ≡ signature_of parameters page word }
    ensures { result ≡ signature_of parameters page word }
{
    signatures[i % 256] as u32
}
