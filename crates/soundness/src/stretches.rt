// The first unsound page of a stretch, by its items as they are lent and by their homes.
ghost use Rattle.std.specs.Prelude.{◌≡◌, true, ◌+◌, ◌-◌, ◌*◌, ◌≤◌, ◌<◌, length, drop};
ghost use Rattle.std.proofs.Math.Seq.{paste};
ghost use Rattle.hashing.specs.Limits.{valid_parameters};
ghost use Rattle.placement.specs.Hash.{sound_at};
ghost use Rattle.placement.specs.Shape.{homes_of};
ghost use Rattle.placement.specs.Lent.{held, before};
ghost use Rattle.placement.specs.Ready.{Signers, Ready};
ghost use Rattle.soundness.specs.Stretch.{HomesAt, SignableAt, Items, HomedItems, Unused, sound_from, Lowest, sound_of};

use crate::star_homes::find_homes;
use crate::testing::{LAST_NUMBER, admitted, unused};
use hashing::Geometry;
use placement::top_of;

// Whether a page is sound, by its items from `at` on, their homes from `to` on, and a table that signs its stars on it.
fn lent_sound(
    table: &[u32],
    geometry: Geometry,
    separators: &[u8],
    numbers: &[u32],
    words: &[u64],
    owners: &[u8],
    homes: &[u32],
    at: usize,
    to: usize,
    page: usize,
) -> bool
    requires signers { Signers geometry.parameters table.now }
    requires separators_len { length separators.now ≡ geometry.parameters.pages }
    requires page_lt_pages { page < geometry.parameters.pages }
    requires items { Items (at + geometry.parameters.places) (to + geometry.parameters.places) numbers.now words.now owners.now homes.now }
    requires homes_at { HomesAt geometry geometry.parameters.places at to numbers.now homes.now }
    requires signable_at { SignableAt (length table.now) geometry.parameters.places page at to numbers.now homes.now }
    ensures { result ≡ sound_from geometry separators.now numbers.now words.now owners.now at page }
{
    if top_of(geometry.parameters) < separators[page] {
        return false;
    }
    let places = geometry.parameters.places as usize;
    let mut last: u32 = 0;
    for i in 0..places {
        let item = admitted(
            table,
            geometry,
            separators,
            page,
            last,
            numbers[at + i],
            words[at + i],
            owners[at + i],
            homes[to + i],
        );
        if !item.sound {
            return false;
        }
        last = item.last;
    }
    true
}

// How many stars of a page are 44 pages or more above their home, so that the first ninety multipliers do not sign them on it.
// Stays: apart from the one for a loaded page, whose homes are 16 bits wide; a test of these widened was slower.
fn count_far(
    numbers: &[u32],
    homes: &[u32],
    at: usize,
    to: usize,
    places: usize,
    page: usize,
) -> u32
    requires places_in_bounds { (at + places ≤ length numbers.now) × ((to + places ≤ length homes.now) × (places ≤ 32)) }
    requires page_bound { page < 1024 }
    ensures { result ≡ 0 → SignableAt 90 places page at to numbers.now homes.now }
{
    if page < 44 {
        return 0;
    }
    let low = (page - 43) as u32;
    let mut far: u32 = 0;
    for i in 0..places {
        far += u32::from((numbers[at + i] != 0) & (homes[to + i] < low));
    }
    far
}

// Whether the items from `first` up to the one before `last` are empty places that hold nothing.
fn all_unused(numbers: &[u32], words: &[u64], owners: &[u8], first: usize, last: usize) -> bool
    requires { (last ≤ length numbers.now) × ((last ≤ length words.now) × (last ≤ length owners.now)) }
    ensures { result ≡ true → Unused numbers.now words.now owners.now first last }
{
    for i in first..last {
        if numbers[i] != 0 {
            return false;
        }
        if !unused(words[i], owners[i]) {
            return false;
        }
    }
    true
}

// True only of a sound page, one with the greatest separator where all stars are at home: no star needs a signature there.
fn sound_at_home(
    geometry: Geometry,
    separators: &[u8],
    numbers: &[u32],
    words: &[u64],
    owners: &[u8],
    homes: &[u32],
    at: usize,
    to: usize,
    page: usize,
) -> bool
    requires parameters_value { valid_parameters geometry.parameters ≡ true }
    requires separators_len { length separators.now ≡ geometry.parameters.pages }
    requires page_lt_pages { page < geometry.parameters.pages }
    requires items { Items (at + geometry.parameters.places) (to + geometry.parameters.places) numbers.now words.now owners.now homes.now }
    requires homes_at { HomesAt geometry geometry.parameters.places at to numbers.now homes.now }
    ensures { result ≡ true → sound_from geometry separators.now numbers.now words.now owners.now at page ≡ true }
{
    if separators[page] != top_of(geometry.parameters) {
        return false;
    }
    let places = geometry.parameters.places as usize;
    let own = page as u32;
    let mut last: u32 = 0;
    for i in 0..places {
        let number = numbers[at + i];
        if number == 0 {
            if LAST_NUMBER < last {
                return false;
            }
            return all_unused(numbers, words, owners, at + i, at + places);
        }
        if number <= last {
            return false;
        }
        if homes[to + i] != own {
            return false;
        }
        if !pages::position::word_valid(words[at + i]) {
            return false;
        }
        last = number;
    }
    last <= LAST_NUMBER
}

// The first unsound page from `from` up to the one before `stop`, or `stop`, by the whole table. Their items stand from `at` on,
// the homes from `to` on.
fn first_unsound(
    table: &[u32],
    geometry: Geometry,
    separators: &[u8],
    numbers: &[u32],
    words: &[u64],
    owners: &[u8],
    homes: &[u32],
    at: usize,
    to: usize,
    from: usize,
    stop: usize,
) -> usize
    requires signers { Signers geometry.parameters table.now }
    requires table_len { length table.now ≡ 2049 }
    requires homed_items { HomedItems geometry at to from stop separators.now numbers.now words.now owners.now homes.now }
    ensures { Lowest (sound_of geometry separators.now numbers.now words.now owners.now at from) from stop result }
{
    let places = geometry.parameters.places as usize;
    for page in from..stop {
        let items = (page - from) * places;
        if !lent_sound(
            table,
            geometry,
            separators,
            numbers,
            words,
            owners,
            homes,
            at + items,
            to + items,
            page,
        ) {
            return page;
        }
    }
    stop
}

// The same where stars are far from home: the whole table is copied once, and lent. Each has a function of its own, as in `probe_beyond`.
fn first_unsound_beyond(
    geometry: Geometry,
    separators: &[u8],
    numbers: &[u32],
    words: &[u64],
    owners: &[u8],
    homes: &[u32],
    at: usize,
    to: usize,
    from: usize,
    stop: usize,
) -> usize
    requires parameters_value { valid_parameters geometry.parameters ≡ true }
    requires homed_items { HomedItems geometry at to from stop separators.now numbers.now words.now owners.now homes.now }
    ensures { Lowest (sound_of geometry separators.now numbers.now words.now owners.now at from) from stop result }
{
    if geometry.parameters.multiplier == 48271 {
        return first_unsound_by::<48271>(
            geometry, separators, numbers, words, owners, homes, at, to, from, stop,
        );
    }
    first_unsound_by::<16807>(
        geometry, separators, numbers, words, owners, homes, at, to, from, stop,
    )
}

fn first_unsound_by<const MULTIPLIER: u32>(
    geometry: Geometry,
    separators: &[u8],
    numbers: &[u32],
    words: &[u64],
    owners: &[u8],
    homes: &[u32],
    at: usize,
    to: usize,
    from: usize,
    stop: usize,
) -> usize
    requires parameters_value { (valid_parameters geometry.parameters ≡ true) × (geometry.parameters.multiplier ≡ MULTIPLIER) }
    requires homed_items { HomedItems geometry at to from stop separators.now numbers.now words.now owners.now homes.now }
    ensures { Lowest (sound_of geometry separators.now numbers.now words.now owners.now at from) from stop result }
{
    let table = generator::multipliers(MULTIPLIER);
    first_unsound(
        &table, geometry, separators, numbers, words, owners, homes, at, to, from, stop,
    )
}

// The same by the first ninety multipliers as long as no star is far from home.
fn first_unsound_near(
    table: &[u32; 90],
    geometry: Geometry,
    separators: &[u8],
    numbers: &[u32],
    words: &[u64],
    owners: &[u8],
    homes: &[u32],
    to: usize,
    from: usize,
    stop: usize,
) -> usize
    requires ready { Ready geometry table.now (held separators.now numbers.now words.now owners.now) }
    requires from_le_stop { (from ≤ stop) × (stop ≤ geometry.parameters.pages) }
    requires places_in_bounds { to + (stop - from) * geometry.parameters.places ≤ length homes.now }
    requires homes_at { HomesAt geometry ((stop - from) * geometry.parameters.places) (from * geometry.parameters.places) to numbers.now homes.now }
    ensures { Lowest (sound_at geometry.parameters geometry.growth (held separators.now numbers.now words.now owners.now)) from stop result }
{
    let places = geometry.parameters.places as usize;
    for page in from..stop {
        let at = page * places;
        let kept = to + (page - from) * places;
        if !sound_at_home(
            geometry, separators, numbers, words, owners, homes, at, kept, page,
        ) {
            if count_far(numbers, homes, at, kept, places, page) != 0 {
                return first_unsound_beyond(
                    geometry, separators, numbers, words, owners, homes, at, kept, page, stop,
                );
            }
            if !lent_sound(
                table, geometry, separators, numbers, words, owners, homes, at, kept, page,
            ) {
                return page;
            }
        }
    }
    stop
}

// The first unsound page from `from` up to the one before `stop`, or `stop`. The homes of these pages' items then stand in `homes`
// from `to` on, 0 for an empty place.
pub fn survey(
    table: &[u32; 90],
    geometry: Geometry,
    separators: &[u8],
    numbers: &[u32],
    words: &[u64],
    owners: &[u8],
    homes: &mut [u32],
    to: usize,
    from: usize,
    stop: usize,
) -> usize
    requires ready { Ready geometry table.now (held separators.now numbers.now words.now owners.now) }
    requires from_le_stop { (from ≤ stop) × (stop ≤ geometry.parameters.pages) }
    requires places_in_bounds { to + (stop - from) * geometry.parameters.places ≤ length homes.old }
    ensures lowest { Lowest (sound_at geometry.parameters geometry.growth (held separators.now numbers.now words.now owners.now)) from stop result }
    ensures homes_after { homes.new ≡ paste homes.old to
        (homes_of geometry.parameters geometry.growth (drop (from * geometry.parameters.places) numbers.now))
        ((stop - from) * geometry.parameters.places) }
{
    let places = geometry.parameters.places as usize;
    find_homes(
        table,
        geometry,
        numbers,
        from * places,
        (stop - from) * places,
        homes,
        to,
    );
    first_unsound_near(
        table, geometry, separators, numbers, words, owners, homes, to, from, stop,
    )
}
