// One page of the file and of the pool: whether they differ, and the pool's stored whole.
ghost use Rattle.std.specs.Prelude.{◌≡◌, ◌+◌, ◌*◌, ◌≤◌, length};
ghost use Rattle.buffers.specs.Lists.{written};
ghost use Rattle.pages.specs.Page.{part};
ghost use Rattle.page_store.specs.Stores.{columns_change};
ghost use Rattle.page_store.specs.Columns.{columns};

use crate::items::same;

pub fn page_differs(
    numbers: &[u32],
    words: &[u64],
    owners: &[u8],
    poolnumbers: &[u32],
    poolwords: &[u64],
    poolowners: &[u8],
    places: usize,
    page: usize,
) -> bool
    requires places_in_bounds { (page * places + places ≤ length numbers.now) × (page * places + places ≤ length poolnumbers.now) }
    requires places_in_bounds_2 { (page * places + places ≤ length words.now) × (page * places + places ≤ length poolwords.now) }
    requires places_in_bounds_3 { (page * places + places ≤ length owners.now) × (page * places + places ≤ length poolowners.now) }
    ensures { result ≡ columns_change places (columns numbers.now words.now owners.now) (columns poolnumbers.now poolwords.now poolowners.now) page }
{
    let from = page * places;
    let to = from + places;
    if !same(&numbers[from..to], &poolnumbers[from..to]) {
        return true;
    }
    if !same(&words[from..to], &poolwords[from..to]) {
        return true;
    }
    !same(&owners[from..to], &poolowners[from..to])
}

pub fn store_page(
    numbers: &mut [u32],
    words: &mut [u64],
    owners: &mut [u8],
    poolnumbers: &[u32],
    poolwords: &[u64],
    poolowners: &[u8],
    places: usize,
    page: usize,
)
    requires places_in_bounds { (page * places + places ≤ length numbers.old) × (page * places + places ≤ length poolnumbers.now) }
    requires places_in_bounds_2 { (page * places + places ≤ length words.old) × (page * places + places ≤ length poolwords.now) }
    requires places_in_bounds_3 { (page * places + places ≤ length owners.old) × (page * places + places ≤ length poolowners.now) }
    ensures numbers_after { numbers.new ≡ written (page * places) (part places page poolnumbers.now) numbers.old }
    ensures words_after { words.new ≡ written (page * places) (part places page poolwords.now) words.old }
    ensures owners_after { owners.new ≡ written (page * places) (part places page poolowners.now) owners.old }
{
    let at = page * places;
    buffers::copy(numbers, at, poolnumbers, at, places);
    buffers::copy(words, at, poolwords, at, places);
    buffers::copy(owners, at, poolowners, at, places);
}
