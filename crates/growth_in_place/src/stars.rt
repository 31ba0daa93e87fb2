// The stars of a page, of all pages, that are to be moved.
ghost use Rattle.std.specs.Prelude.{◌≡◌, true, false, ◌+◌, ◌*◌, ◌≤◌, ◌<◌, length, drop, get_or};
ghost use Rattle.std.proofs.Math.Seq.{paste};
ghost use Rattle.generator.specs.Generator.{top_of_lem};
ghost use Rattle.hashing.specs.Geometry.{page_count, grown};
ghost use Rattle.placement.specs.Shape.{homes_of};
ghost use Rattle.placement.specs.Lent.{held};
ghost use Rattle.placement.specs.Ready.{Homing, Ready};
ghost use Rattle.reach.specs.Reach.{first_unsound_lem};
ghost use Rattle.growth_in_place.specs.Expansion.{Moving, Stepped, NoneJoins, page_stars, SettledBelow, NoneAway, NoneCounted, Spacious, Expanded};

use crate::joining::joins;
use crate::moving::move_star;
use crate::tallying::{count_stars, has_room};
use crate::walking::{near, runs_on};
use hashing::Geometry;
use home_update::item_grown;

// The homes of the new page's stars under the next growth state.
fn rehome_page(
    table: &[u32; 90],
    geometry: Geometry,
    numbers: &[u32],
    homes: &mut [u32],
    page: usize,
)
    requires homing { Homing geometry table.now }
    requires places_in_bounds { page * geometry.parameters.places + geometry.parameters.places ≤ length numbers.now }
    requires homes_value { homes.old ≡ homes_of geometry.parameters geometry.growth numbers.now }
    ensures { homes.new ≡ paste homes.old (page * geometry.parameters.places)
        (drop (page * geometry.parameters.places) (homes_of geometry.parameters (grown geometry.parameters geometry.growth) numbers.now))
        geometry.parameters.places }
{
    let places = geometry.parameters.places as usize;
    let first = page * places;
    for i in 0..places {
        let old = homes[first + i];
        homes[first + i] = item_grown(table, geometry, numbers[first + i], old);
    }
}

// From the last place down: those behind a star that is taken have been looked at.
fn move_from(
    table: &[u32; 90],
    geometry: Geometry,
    numbers: &mut [u32],
    words: &mut [u64],
    owners: &mut [u8],
    homes: &mut [u32],
    page: usize,
    added: u32,
)
    requires homing { Homing geometry table.now }
    requires moving { Moving geometry.parameters geometry.growth numbers.old words.old owners.old homes.old }
    requires added_value { (added ≡ page_count geometry.parameters geometry.growth) × (added < geometry.parameters.pages) }
    requires page_lt_added { page < added }
    ensures stepped { Stepped geometry.parameters geometry.growth numbers words owners homes }
    ensures none_joins { NoneJoins geometry.parameters geometry.growth
        (page_stars geometry.parameters numbers.new words.new owners.new page) }
{
    let places = geometry.parameters.places as usize;
    let first = page * places;
    for i in (0..places).rev() {
        let number = numbers[first + i];
        let home = homes[first + i];
        if joins(table, geometry, number, home, added) {
            move_star(geometry, numbers, words, owners, homes, page, i, added);
        }
    }
}

// From all pages below the new one.
fn move_below(
    table: &[u32; 90],
    geometry: Geometry,
    separators: &[u8],
    numbers: &mut [u32],
    words: &mut [u64],
    owners: &mut [u8],
    homes: &mut [u32],
    added: u32,
)
    requires homing { Homing geometry table.now }
    requires separators_len { length separators.now ≡ geometry.parameters.pages }
    requires moving { Moving geometry.parameters geometry.growth numbers.old words.old owners.old homes.old }
    requires added_value { (added ≡ page_count geometry.parameters geometry.growth) × (added < geometry.parameters.pages) }
    requires none_away { NoneAway geometry.parameters geometry.growth separators.now numbers.old words.old owners.old }
    ensures stepped { Stepped geometry.parameters geometry.growth numbers words owners homes }
    ensures settled_below { SettledBelow geometry.parameters geometry.growth added numbers.new words.new owners.new }
{
    let parameters = geometry.parameters;
    let mut runs = false;
    for page in 0..added as usize {
        let here = near(geometry, runs, page);
        runs = runs_on(parameters, here, separators[page]);
        if here {
            move_from(table, geometry, numbers, words, owners, homes, page, added);
        }
    }
}

// Whether the new page has not overflowed and has room for all stars whose home it becomes; `homes` are those of the items.
pub fn is_spacious(
    table: &[u32; 90],
    geometry: Geometry,
    separators: &[u8],
    numbers: &[u32],
    homes: &[u32],
) -> bool
    requires homing { Homing geometry table.now }
    requires growth_bound { page_count geometry.parameters geometry.growth < geometry.parameters.pages }
    requires separators_len { length separators.now ≡ geometry.parameters.pages }
    requires numbers_len { length numbers.now ≡ geometry.parameters.pages * geometry.parameters.places }
    requires homes_value { homes.now ≡ homes_of geometry.parameters geometry.growth numbers.now }
    requires none_counted { get_or separators.now (page_count geometry.parameters geometry.growth) 0 ≡ top_of_lem geometry.parameters.bits
        → NoneCounted geometry.parameters geometry.growth separators.now numbers.now }
    ensures { result ≡ true → Spacious geometry.parameters geometry.growth separators.now numbers.now }
{
    let places = geometry.parameters.places as usize;
    let added = geometry.highest_address() + 1;
    let page = added as usize;
    if separators[page] != placement::top_of(geometry.parameters) {
        return false;
    }
    let count = count_stars(table, geometry, separators, numbers, homes, added);
    has_room(numbers, places, page, count)
}

// Moves the stars whose home becomes the new page to it, if it has not overflowed and has room for them all. The pool holds the items' homes,
// and afterwards those under the next growth state.
pub fn move_stars(
    table: &[u32; 90],
    geometry: Geometry,
    separators: &[u8],
    numbers: &mut [u32],
    words: &mut [u64],
    owners: &mut [u8],
    homes: &mut [u32],
) -> bool
    requires ready { Ready geometry table.now (held separators.now numbers.old words.old owners.old) }
    requires homes_value { homes.old ≡ homes_of geometry.parameters geometry.growth numbers.old }
    requires pages_value { first_unsound_lem geometry.parameters geometry.growth (held separators.now numbers.old words.old owners.old) 0 geometry.parameters.pages ≡ geometry.parameters.pages }
    requires growth_bound { page_count geometry.parameters geometry.growth < geometry.parameters.pages }
    ensures { Expanded geometry.parameters geometry.growth separators numbers words owners homes result }
{
    if !is_spacious(table, geometry, separators, numbers, homes) {
        return false;
    }
    let added = geometry.highest_address() + 1;
    rehome_page(table, geometry, numbers, homes, added as usize);
    move_below(
        table, geometry, separators, numbers, words, owners, homes, added,
    );
    true
}
