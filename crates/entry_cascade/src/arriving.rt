// The stars of a page join the words that are carried to it.
ghost use Rattle.std.specs.Prelude.{◌≡◌, true, ◌++◌, ◌+◌, ◌*◌, ◌^◌, ◌≤◌, ◌<◌, ltb, length, take};
ghost use Rattle.std.proofs.Math.Seq.{slice};
ghost use Rattle.placement.specs.Lent.{held};
ghost use Rattle.placement.specs.Ready.{Homing, Ready};
ghost use Rattle.soundness.specs.Survey.{Tested};
ghost use Rattle.reach.specs.Known.{Known};
ghost use Rattle.page_separator.specs.Lists.{all_below};
ghost use Rattle.page_plan.specs.Gather.{words_from, stars_in};
ghost use Rattle.entry_cascade.specs.Arriving.{TakesIn, KnownValue};

use hashing::Geometry;

// Where the words of a page's stars end; the page is unsound; or the list does not hold them.
#[derive(Clone, Copy)]
pub enum Taken {
    Joined(usize),
    Unsound,
    Crowded,
}

// The page's stars as words behind the first `end`; `at` is the page's first item.
pub fn append(
    waiting: &mut [u64],
    numbers: &[u32; 32],
    homes: &[u32; 32],
    places: usize,
    at: usize,
    end: usize,
) -> usize
    requires places_bound { (places ≤ 32) × (at + places < 2 ^ 16) }
    requires places_in_bounds { (places ≤ length numbers.now) × (places ≤ length homes.now) }
    requires numbers_value { (all_below (2 ^ 31) (take places numbers.now) ≡ true) × (all_below 1024 (take places homes.now) ≡ true) }
    requires numbers_in_bounds { end + stars_in 0 (take places numbers.now) ≤ length waiting.old }
    ensures value { result ≡ end + length (words_from at 0 (take places numbers.now) (take places homes.now)) }
    ensures waiting_after { take result waiting.new ≡ take end waiting.old ++ words_from at 0 (take places numbers.now) (take places homes.now) }
{
    let mut reach = end;
    for i in 0..places {
        let number = numbers[i];
        let home = homes[i];
        if number != 0 {
            waiting[reach] = page_separator::pack(home, number, at + i + 1);
            reach += 1;
        }
    }
    reach
}

// Whether a page's stars are more than `room`; they are counted only if they might be.
fn exceeds(numbers: &[u32], at: usize, places: usize, room: usize) -> bool
    requires { at + places ≤ length numbers.now }
    ensures { result ≡ ltb room (stars_in 0 (slice at (at + places) numbers.now)) }
{
    if places <= room {
        return false;
    }
    room < page_plan::count_stars(numbers, at, at + places, 0)
}

// As `soundness::page_sound`, but a page below `tested` is known: it is not tested again.
fn test_page<'a>(
    table: &[u32; 90],
    geometry: Geometry,
    separators: &[u8],
    numbers: &'a [u32; 32],
    words: &'a [u64; 32],
    owners: &'a [u8; 32],
    pool: &[u32],
    page: usize,
    tested: usize,
    homes: &mut [u32; 32],
) -> bool
    requires homing { Homing geometry table.now }
    requires separators_len { (length separators.now ≡ geometry.parameters.pages) × (length pool.now ≡ geometry.parameters.pages * geometry.parameters.places) }
    requires page_lt_pages { page < geometry.parameters.pages }
    requires numbers_len { (length numbers.now ≡ 32) × ((length words.now ≡ 32) × (length owners.now ≡ 32)) }
    requires homes_len { length homes.old ≡ 32 }
    requires known_value { page < tested → KnownValue geometry separators.now page numbers.now words.now owners.now pool.now }
    ensures { Tested geometry separators.now page numbers.now words.now owners.now homes.new result }
{
    if page < tested {
        let places = geometry.parameters.places as usize;
        buffers::copy(homes, 0, pool, page * places, places);
        return true;
    }
    soundness::page_sound(
        table, geometry, separators, numbers, words, owners, page, homes,
    )
}

// Loads the page, tests it, and appends its stars to the words up to `end`. A page below `tested` is known.
pub fn take_in(
    table: &[u32; 90],
    geometry: Geometry,
    separators: &[u8],
    numbers: &[u32],
    words: &[u64],
    owners: &[u8],
    pool: &[u32],
    waiting: &mut [u64],
    page: usize,
    end: usize,
    tested: usize,
) -> Taken
    requires ready { Ready geometry table.now (held separators.now numbers.now words.now owners.now) }
    requires waiting_len { (length waiting.old ≡ geometry.parameters.pages * geometry.parameters.places) × (length pool.now ≡ geometry.parameters.pages * geometry.parameters.places) }
    requires page_lt_pages { (page < geometry.parameters.pages) × (end ≤ length waiting.old) }
    requires known { page < tested → Known geometry.parameters geometry.growth (held separators.now numbers.now words.now owners.now) pool.now page }
    ensures { TakesIn geometry (held separators.now numbers.now words.now owners.now) page end waiting result }
{
    let places = geometry.parameters.places as usize;
    let at = page * places;
    let value = pages::page::load(numbers, words, owners, places, page);
    let mut homes = [0u32; 32];
    if !test_page(
        table,
        geometry,
        separators,
        &value.numbers,
        &value.words,
        &value.owners,
        pool,
        page,
        tested,
        &mut homes,
    ) {
        return Taken::Unsound;
    }
    if exceeds(numbers, at, places, waiting.len() - end) {
        return Taken::Crowded;
    }
    let reach = append(waiting, &value.numbers, &homes, places, at, end);
    Taken::Joined(reach)
}
