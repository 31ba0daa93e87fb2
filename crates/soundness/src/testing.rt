// The soundness of a page. Its stars' homes are computed once and at once, for the test, and kept.
ghost use Rattle.std.specs.Prelude.{◌≡◌, true, ◌&&◌, ◌+◌, ◌-◌, ◌*◌, ◌≤◌, ◌<◌, eqb, leb, ltb, length, get_or};
ghost use Rattle.hashing.specs.Geometry.{multiplier_of};
ghost use Rattle.hashing.specs.Limits.{valid_parameters};
ghost use Rattle.hashing.specs.Home.{home as Home·home};
ghost use Rattle.pages.specs.Position.{valid_word};
ghost use Rattle.placement.specs.File.{greatest};
ghost use Rattle.placement.specs.Ready.{Signers, Homing};
ghost use Rattle.soundness.specs.Survey.{TestedItem, SignableOn, Testable, Tested};

use crate::probing::stands_on;
use hashing::Geometry;
use placement::top_of;

pub const LAST_NUMBER: u32 = 2147483646;

// Whether an item is sound, and if so its star's home, 0 for an empty place, and the number that the next one must exceed.
#[derive(Clone, Copy)]
pub struct Item {
    pub sound: bool,
    pub home: u32,
    pub last: u32,
}

// Whether a page is sound, by the value of its places as loaded; if so, `homes` has its stars' homes, 0 for an empty place.
pub fn page_sound<'a>(
    table: &[u32; 90],
    geometry: Geometry,
    separators: &[u8],
    numbers: &'a [u32; 32],
    words: &'a [u64; 32],
    owners: &'a [u8; 32],
    page: usize,
    homes: &mut [u32; 32],
) -> bool
    requires homing { Homing geometry table.now }
    requires separators_len { length separators.now ≡ geometry.parameters.pages }
    requires page_lt_pages { page < geometry.parameters.pages }
    requires numbers_len { (length numbers.now ≡ 32) × ((length words.now ≡ 32) × (length owners.now ≡ 32)) }
    requires homes_len { length homes.old ≡ 32 }
    ensures { Tested geometry separators.now page numbers.now words.now owners.now homes.new result }
{
    let places = geometry.parameters.places as usize;
    if top_of(geometry.parameters) < separators[page] {
        return false;
    }
    let mut found = [0u16; 32];
    let occupied = occupied_places(numbers, places);
    homes::of_page(table, geometry, numbers, occupied, &mut found);
    if count_far(numbers, &found, page) == 0 {
        return items_sound(
            table, geometry, separators, numbers, words, owners, &found, page, homes,
        );
    }
    items_beyond(
        geometry, separators, numbers, words, owners, &found, page, homes,
    )
}

// The places before the first eight that begin with an empty one: a sound page has no star behind it, and homes are computed by eights.
fn occupied_places(numbers: &[u32; 32], places: usize) -> usize
    requires { places ≤ 32 }
    ensures { (result ≤ places) × (result < places → get_or numbers.now result 0 ≡ 0) }
{
    for i in (0..places).step_by(8) {
        if numbers[i] == 0 {
            return i;
        }
    }
    places
}

// How many stars of a page are 44 pages or more above their home, so that the first ninety multipliers do not sign them on it.
fn count_far(numbers: &[u32; 32], found: &[u16; 32], page: usize) -> u32
    requires { page < 1024 }
    ensures { result ≡ 0 → SignableOn 90 page numbers.now found.now }
{
    if page < 44 {
        return 0;
    }
    let low = (page - 43) as u16;
    let mut far: u32 = 0;
    for i in 0..32 {
        far += u32::from((numbers[i] != 0) & (found[i] < low));
    }
    far
}

// The items of a page, by a table that signs its stars on it.
fn items_sound<'a>(
    table: &[u32],
    geometry: Geometry,
    separators: &[u8],
    numbers: &'a [u32; 32],
    words: &'a [u64; 32],
    owners: &'a [u8; 32],
    found: &[u16; 32],
    page: usize,
    homes: &mut [u32; 32],
) -> bool
    requires signers { Signers geometry.parameters table.now }
    requires testable { Testable geometry separators.now page numbers.now words.now owners.now found.now homes.old }
    requires signable_on { SignableOn (length table.now) page numbers.now found.now }
    ensures { Tested geometry separators.now page numbers.now words.now owners.now homes.new result }
{
    let places = geometry.parameters.places as usize;
    let mut last: u32 = 0;
    for i in 0..places {
        let item = admitted(
            table,
            geometry,
            separators,
            page,
            last,
            numbers[i],
            words[i],
            owners[i],
            u32::from(found[i]),
        );
        if !item.sound {
            return false;
        }
        homes[i] = item.home;
        last = item.last;
    }
    true
}

// The same by the whole table, for a star 44 pages or more above its home. Each table has a function of its own, as in `probe_beyond`.
fn items_beyond<'a>(
    geometry: Geometry,
    separators: &[u8],
    numbers: &'a [u32; 32],
    words: &'a [u64; 32],
    owners: &'a [u8; 32],
    found: &[u16; 32],
    page: usize,
    homes: &mut [u32; 32],
) -> bool
    requires parameters_value { valid_parameters geometry.parameters ≡ true }
    requires testable { Testable geometry separators.now page numbers.now words.now owners.now found.now homes.old }
    ensures { Tested geometry separators.now page numbers.now words.now owners.now homes.new result }
{
    if geometry.parameters.multiplier == 48271 {
        return items_by::<48271>(
            geometry, separators, numbers, words, owners, found, page, homes,
        );
    }
    items_by::<16807>(
        geometry, separators, numbers, words, owners, found, page, homes,
    )
}

fn items_by<'a, const MULTIPLIER: u32>(
    geometry: Geometry,
    separators: &[u8],
    numbers: &'a [u32; 32],
    words: &'a [u64; 32],
    owners: &'a [u8; 32],
    found: &[u16; 32],
    page: usize,
    homes: &mut [u32; 32],
) -> bool
    requires parameters_value { (valid_parameters geometry.parameters ≡ true) × (geometry.parameters.multiplier ≡ MULTIPLIER) }
    requires testable { Testable geometry separators.now page numbers.now words.now owners.now found.now homes.old }
    ensures { Tested geometry separators.now page numbers.now words.now owners.now homes.new result }
{
    let table = generator::multipliers(MULTIPLIER);
    items_sound(
        &table, geometry, separators, numbers, words, owners, found, page, homes,
    )
}

pub fn admitted(
    table: &[u32],
    geometry: Geometry,
    separators: &[u8],
    page: usize,
    last: u32,
    number: u32,
    word: u64,
    owner: u8,
    home: u32,
) -> Item
    requires signers { Signers geometry.parameters table.now }
    requires separators_len { length separators.now ≡ geometry.parameters.pages }
    requires page_lt_pages { page < geometry.parameters.pages }
    requires home_value { last < number → number ≤ greatest → home ≡ Home·home (multiplier_of geometry.parameters) geometry.parameters geometry.growth number }
    requires home_in_bounds { (number ≡ 0 → ⊥) → 2 * (page + 1 - home) < length table.now }
    ensures { TestedItem geometry.parameters geometry.growth separators.now page last number word owner result }
{
    if number == 0 {
        return Item {
            sound: unused(word, owner),
            home: 0,
            last: LAST_NUMBER,
        };
    }
    if !ordered(last, number, word) {
        return Item {
            sound: false,
            home: 0,
            last,
        };
    }
    Item {
        sound: stands_on(table, geometry, separators, number, home as usize, page),
        home,
        last: number,
    }
}

// What an empty place must hold.
pub fn unused(word: u64, owner: u8) -> bool
    ensures { result ≡ (eqb word 0 && eqb owner 0) }
{
    word == 0 && owner == 0
}

fn ordered(last: u32, number: u32, word: u64) -> bool
    ensures { result ≡ (ltb last number && (leb number greatest && valid_word word)) }
{
    last < number && number <= LAST_NUMBER && pages::position::word_valid(word)
}
