// The pages of a stretch stored in turn.
ghost use Rattle.std.specs.Prelude.{◌≡◌, cond, ◌+◌, ◌*◌, ◌≤◌, ◌<◌, length, take, drop};
ghost use Rattle.buffers.specs.Lists.{written};
ghost use Rattle.page_store.specs.Stores.{page_in_turn_lem, changed_pages, enough, column_stored};
ghost use Rattle.page_store.specs.Columns.{columns};

use crate::one_page::{page_differs, store_page};

fn page_in_turn(upward: bool, lo: usize, count: usize, turn: usize) -> usize
    requires { (turn < count) × (lo + count < 18446744073709551616) }
    ensures { result ≡ page_in_turn_lem upward lo count turn }
{
    if upward {
        return lo + turn;
    }
    lo + (count - (turn + 1))
}

// The changed pages, a page whole before the next, while fewer than `limit` are stored. Answers whether all were.
fn store_pages(
    numbers: &mut [u32],
    words: &mut [u64],
    owners: &mut [u8],
    poolnumbers: &[u32],
    poolwords: &[u64],
    poolowners: &[u8],
    places: usize,
    lo: usize,
    count: usize,
    limit: usize,
    upward: bool,
) -> bool
    requires count_bound { lo + count < 18446744073709551616 }
    requires places_in_bounds { ((lo + count) * places ≤ length numbers.old) × ((lo + count) * places ≤ length poolnumbers.now) }
    requires places_in_bounds_2 { ((lo + count) * places ≤ length words.old) × ((lo + count) * places ≤ length poolwords.now) }
    requires places_in_bounds_3 { ((lo + count) * places ≤ length owners.old) × ((lo + count) * places ≤ length poolowners.now) }
    ensures value { result ≡ enough limit (changed_pages upward places lo count (columns numbers.old words.old owners.old) (columns poolnumbers.now poolwords.now poolowners.now)) }
    ensures numbers_after { numbers.new ≡ column_stored places poolnumbers.now (take limit
        (changed_pages upward places lo count (columns numbers.old words.old owners.old) (columns poolnumbers.now poolwords.now poolowners.now))) numbers.old }
    ensures words_after { words.new ≡ column_stored places poolwords.now (take limit
        (changed_pages upward places lo count (columns numbers.old words.old owners.old) (columns poolnumbers.now poolwords.now poolowners.now))) words.old }
    ensures owners_after { owners.new ≡ column_stored places poolowners.now (take limit
        (changed_pages upward places lo count (columns numbers.old words.old owners.old) (columns poolnumbers.now poolwords.now poolowners.now))) owners.old }
{
    let mut stored = 0;
    for turn in 0..count {
        let page = page_in_turn(upward, lo, count, turn);
        if page_differs(
            numbers,
            words,
            owners,
            poolnumbers,
            poolwords,
            poolowners,
            places,
            page,
        ) {
            if stored >= limit {
                return false;
            }
            store_page(
                numbers,
                words,
                owners,
                poolnumbers,
                poolwords,
                poolowners,
                places,
                page,
            );
            stored += 1;
        }
    }
    true
}

// The one function that writes. The pool has the new contents of the stretch at the items of the file; its separators are in `planned`.
pub fn store(
    separators: &mut [u8],
    numbers: &mut [u32],
    words: &mut [u64],
    owners: &mut [u8],
    poolnumbers: &[u32],
    poolwords: &[u64],
    poolowners: &[u8],
    planned: &[u8],
    places: usize,
    lo: usize,
    count: usize,
    limit: usize,
    upward: bool,
) -> bool
    requires count_in_bounds { (lo + count ≤ length separators.old) × (lo + count ≤ length planned.now) }
    requires places_in_bounds { ((lo + count) * places ≤ length numbers.old) × ((lo + count) * places ≤ length poolnumbers.now) }
    requires places_in_bounds_2 { ((lo + count) * places ≤ length words.old) × ((lo + count) * places ≤ length poolwords.now) }
    requires places_in_bounds_3 { ((lo + count) * places ≤ length owners.old) × ((lo + count) * places ≤ length poolowners.now) }
    ensures value { result ≡ enough limit (changed_pages upward places lo count (columns numbers.old words.old owners.old) (columns poolnumbers.now poolwords.now poolowners.now)) }
    ensures separators_after { separators.new ≡ cond (enough limit (changed_pages upward places lo count (columns numbers.old words.old owners.old)
        (columns poolnumbers.now poolwords.now poolowners.now))) (written lo (take count (drop lo planned.now)) separators.old) separators.old }
    ensures numbers_after { numbers.new ≡ column_stored places poolnumbers.now (take limit
        (changed_pages upward places lo count (columns numbers.old words.old owners.old) (columns poolnumbers.now poolwords.now poolowners.now))) numbers.old }
    ensures words_after { words.new ≡ column_stored places poolwords.now (take limit
        (changed_pages upward places lo count (columns numbers.old words.old owners.old) (columns poolnumbers.now poolwords.now poolowners.now))) words.old }
    ensures owners_after { owners.new ≡ column_stored places poolowners.now (take limit
        (changed_pages upward places lo count (columns numbers.old words.old owners.old) (columns poolnumbers.now poolwords.now poolowners.now))) owners.old }
{
    let all = store_pages(
        numbers,
        words,
        owners,
        poolnumbers,
        poolwords,
        poolowners,
        places,
        lo,
        count,
        limit,
        upward,
    );
    if all {
        buffers::copy(separators, lo, planned, lo, count);
    }
    all
}
