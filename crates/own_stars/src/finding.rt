// The own stars of a page.
ghost use Rattle.std.specs.Prelude.{◌≡◌, ◌+◌, ◌*◌, ◌≤◌, ◌<◌, length};
ghost use Rattle.own_stars.specs.Own.{OwnOf};

use pages::page::Page;

// The page as a value, with the numbers of its own stars alone; `homes` are those of the items.
pub fn find_own(
    numbers: &[u32],
    words: &[u64],
    owners: &[u8],
    homes: &[u32],
    places: usize,
    page: usize,
) -> Page
    requires places_bound { (places ≤ 32) × (page < 1024) }
    requires places_in_bounds { page * places + places ≤ length numbers.now }
    requires places_in_bounds_2 { page * places + places ≤ length words.now }
    requires places_in_bounds_3 { page * places + places ≤ length owners.now }
    requires places_in_bounds_4 { page * places + places ≤ length homes.now }
    ensures { OwnOf places page numbers.now words.now owners.now homes.now result }
{
    let mut own = pages::page::load(numbers, words, owners, places, page);
    let first = page * places;
    let home = page as u32;
    for i in 0..places {
        if homes[first + i] != home {
            own.numbers[i] = 0;
        }
    }
    own
}
