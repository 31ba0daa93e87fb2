// How many stars are to be moved, and whether the new page has room for them.
ghost use Rattle.std.specs.Prelude.{◌≡◌, true, ◌+◌, ◌*◌, ◌≤◌, ◌<◌, length};
ghost use Rattle.hashing.specs.Geometry.{page_count};
ghost use Rattle.pages.specs.Page.{part};
ghost use Rattle.placement.specs.Shape.{homes_of};
ghost use Rattle.placement.specs.Ready.{Homing};
ghost use Rattle.growth_in_place.specs.Expansion.{joiners_in, joiners_below, RoomFor, NoneCounted};

use crate::joining::joins;
use crate::walking::{near, runs_on};
use hashing::Geometry;

// Those of one page.
fn count_page(
    table: &[u32; 90],
    geometry: Geometry,
    numbers: &[u32],
    homes: &[u32],
    page: usize,
    added: u32,
) -> usize
    requires homing { Homing geometry table.now }
    requires added_value { added ≡ page_count geometry.parameters geometry.growth }
    requires places_in_bounds { page * geometry.parameters.places + geometry.parameters.places ≤ length numbers.now }
    requires homes_value { homes.now ≡ homes_of geometry.parameters geometry.growth numbers.now }
    ensures { result ≡ joiners_in geometry.parameters geometry.growth (part geometry.parameters.places page numbers.now) }
{
    let places = geometry.parameters.places as usize;
    let first = page * places;
    let mut count = 0;
    for i in 0..places {
        let at = first + i;
        if joins(table, geometry, numbers[at], homes[at], added) {
            count += 1;
        }
    }
    count
}

// Those of the pages below the new one.
pub fn count_stars(
    table: &[u32; 90],
    geometry: Geometry,
    separators: &[u8],
    numbers: &[u32],
    homes: &[u32],
    added: u32,
) -> usize
    requires homing { Homing geometry table.now }
    requires added_value { added ≡ page_count geometry.parameters geometry.growth }
    requires added_lt_pages { added < geometry.parameters.pages }
    requires separators_len { length separators.now ≡ geometry.parameters.pages }
    requires numbers_len { length numbers.now ≡ geometry.parameters.pages * geometry.parameters.places }
    requires homes_value { homes.now ≡ homes_of geometry.parameters geometry.growth numbers.now }
    requires none_counted { NoneCounted geometry.parameters geometry.growth separators.now numbers.now }
    ensures { result ≡ joiners_below geometry.parameters geometry.growth numbers.now added }
{
    let parameters = geometry.parameters;
    let mut total = 0;
    let mut runs = false;
    for page in 0..added as usize {
        let here = near(geometry, runs, page);
        runs = runs_on(parameters, here, separators[page]);
        if here {
            total += count_page(table, geometry, numbers, homes, page, added);
        }
    }
    total
}

pub fn has_room(numbers: &[u32], places: usize, page: usize, count: usize) -> bool
    requires { page * places + places ≤ length numbers.now }
    ensures { result ≡ true → RoomFor places page count numbers.now }
{
    if count == 0 {
        return true;
    }
    if places < count {
        return false;
    }
    let first = places - count;
    numbers[page * places + first] == 0
}
