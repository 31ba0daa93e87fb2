// The three bits of a star: set, tested, and those of all reports of a tray.
ghost use Rattle.std.specs.Prelude.{◌≡◌, true, ◌≤◌, ◌<◌, length, take, drop};
ghost use Rattle.generator.specs.Generator.{valid_multiplier};
ghost use Rattle.reports.specs.Bits.{bit_of, bit_at, with_bit_lem, bit_set, hash_bit, marked};
ghost use Rattle.reports.specs.Bits.{passes as Bits·passes};
ghost use Rattle.reports.specs.Reports.{filter_of};

use generator::residue;
use reports::Report;

// The places of a star's bits among the filter's 2,048.
#[derive(Clone, Copy)]
struct HashBits {
    first: usize,
    second: usize,
    third: usize,
}

// X1, X2 and X3, each the one before times the multiplier.
fn hash_bits(multiplier: u32, number: u32) -> HashBits
    requires { valid_multiplier multiplier ≡ true }
    ensures { (result.first ≡ hash_bit multiplier 1 number) × ((result.second ≡ hash_bit multiplier 2 number) × (result.third ≡ hash_bit multiplier 3 number)) }
{
    let once = residue(multiplier, number % 2147483647);
    let twice = residue(multiplier, once);
    let thrice = residue(multiplier, twice);
    HashBits {
        first: (once % 2048) as usize,
        second: (twice % 2048) as usize,
        third: (thrice % 2048) as usize,
    }
}

fn is_set(word: u64, bit: usize) -> bool
    requires { bit < 64 }
    ensures { result ≡ bit_of word bit }
{
    (word >> bit) % 2 == 1
}

fn bit_at(filter: &[u64], bit: usize) -> bool
    requires { (length filter.now ≡ 32) × (bit < 2048) }
    ensures { result ≡ bit_at filter.now bit }
{
    is_set(filter[bit / 64], bit % 64)
}

fn with_bit(word: u64, bit: usize) -> u64
    requires { bit < 64 }
    ensures { result ≡ with_bit_lem word bit }
{
    if is_set(word, bit) {
        return word;
    }
    word + (1u64 << bit)
}

fn set_bit(filter: &mut [u64], bit: usize)
    requires { (length filter.old ≡ 32) × (bit < 2048) }
    ensures { filter.new ≡ bit_set filter.old bit }
{
    filter[bit / 64] = with_bit(filter[bit / 64], bit % 64);
}

// Sets the three bits of a star.
pub fn mark(multiplier: u32, filter: &mut [u64], number: u32)
    requires { (valid_multiplier multiplier ≡ true) × (length filter.old ≡ 32) }
    ensures { filter.new ≡ marked multiplier filter.old number }
{
    let bits = hash_bits(multiplier, number);
    set_bit(filter, bits.first);
    set_bit(filter, bits.second);
    set_bit(filter, bits.third);
}

// Whether the filter does not say "no" to a star.
pub fn passes(multiplier: u32, filter: &[u64], number: u32) -> bool
    requires { (valid_multiplier multiplier ≡ true) × (length filter.now ≡ 32) }
    ensures { result ≡ Bits·passes multiplier filter.now number }
{
    let bits = hash_bits(multiplier, number);
    if !bit_at(filter, bits.first) {
        return false;
    }
    if !bit_at(filter, bits.second) {
        return false;
    }
    bit_at(filter, bits.third)
}

// "the filter is made anew" from the reports `from` to `count` − 1.
pub fn remake(
    multiplier: u32,
    filter: &mut [u64],
    reports: [Report; 256],
    from: usize,
    count: usize,
)
    requires multiplier_value { (valid_multiplier multiplier ≡ true) × (length filter.old ≡ 32) }
    requires from_le_count { (from ≤ count) × (count ≤ 256) }
    ensures { filter.new ≡ filter_of multiplier (drop from (take count reports)) }
{
    buffers::fill(filter, 0);
    for report in &reports[from..count] {
        mark(multiplier, filter, report.number);
    }
}
