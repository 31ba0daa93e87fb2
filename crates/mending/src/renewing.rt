// All pages placed anew over the stars of words that stand in groups by home.
ghost use Rattle.std.specs.Prelude.{◌≡◌, true, map, ◌≤◌, length, take};
ghost use Rattle.hashing.specs.Limits.{valid_parameters};
ghost use Rattle.placement.specs.Shape.{Sized};
ghost use Rattle.placement.specs.Hash.{lent};
ghost use Rattle.placement.specs.Lent.{held, before, after};
ghost use Rattle.plan_transfer.specs.Sources.{named_item};
ghost use Rattle.placement.specs.Ready.{Pooled};
ghost use Rattle.page_plan.specs.Sources.{sourced};
ghost use Rattle.duplicates.specs.Words.{InGroups};
ghost use Rattle.mending.specs.Renew.{words_fit, words_placed};

use hashing::Parameters;

// What the sources in the pool name of the file, in place of it, with the planned separators: none that was found is kept.
fn write_back(
    separators: &mut [u8],
    numbers: &mut [u32],
    words: &mut [u64],
    owners: &mut [u8],
    pool: &mut [u32],
    waiting: &mut [u64],
    poolowners: &mut [u8],
    planned: &[u8; 1024],
)
    requires separators_in_bounds { length separators.old ≤ length planned.now }
    requires numbers_len { (length numbers.old ≡ length pool.old) × ((length words.old ≡ length pool.old) × (length owners.old ≡ length pool.old)) }
    requires waiting_len { (length waiting.old ≡ length pool.old) × (length poolowners.old ≡ length pool.old) }
    ensures { after separators numbers words owners ≡ lent (take (length separators.old) planned.now)
        (map (named_item numbers.old 0) pool.old) (map (named_item words.old 0) pool.old)
        (map (named_item owners.old 0) pool.old) }
{
    let items = pool.len();
    plan_transfer::fetch(
        numbers, words, owners, pool, waiting, poolowners, 0, items, 0, 0, 0,
    );
    buffers::copy(numbers, 0, pool, 0, items);
    buffers::copy(words, 0, waiting, 0, items);
    buffers::copy(owners, 0, poolowners, 0, items);
    let pages = separators.len();
    buffers::copy(separators, 0, planned, 0, pages);
}

// The answer is whether nothing is carried past the last page. If something is, the file stays.
pub fn renew(
    parameters: Parameters,
    separators: &mut [u8],
    numbers: &mut [u32],
    words: &mut [u64],
    owners: &mut [u8],
    pool: &mut [u32],
    waiting: &mut [u64],
    poolowners: &mut [u8],
    ends: &[u32],
    end: usize,
) -> bool
    requires parameters_value { valid_parameters parameters ≡ true }
    requires sized { Sized parameters.places parameters.pages (held separators.old numbers.old words.old owners.old) }
    requires pooled { Pooled parameters pool.old waiting.old poolowners.old }
    requires in_groups { InGroups parameters.pages end waiting.old ends.now }
    requires waiting_value { sourced numbers.old 0 (take end waiting.old) ≡ true }
    ensures value { result ≡ words_fit parameters (take end waiting.old) }
    ensures owners_value { after separators numbers words owners ≡ words_placed parameters (before separators numbers words owners) (take end waiting.old) }
{
    let mut planned = [0u8; 1024];
    if !page_plan::place_all(parameters, pool, waiting, &mut planned, ends, end) {
        return false;
    }
    write_back(
        separators, numbers, words, owners, pool, waiting, poolowners, &planned,
    );
    true
}
