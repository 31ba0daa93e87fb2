// The cascade planned: page after page, until nothing is carried on.
ghost use Rattle.std.specs.Prelude.{◌≡◌, ◌*◌, ◌≤◌, length};
ghost use Rattle.placement.specs.Lent.{held, before};
ghost use Rattle.entry_reach.specs.Entry.{KnownTo, Enters};
ghost use Rattle.entry_cascade.specs.Cascade.{Plans};

use crate::arriving::{Taken, take_in};
use crate::filling::fill_page;
use entry_reach::{Reach, lower_page};
use hashing::Geometry;

// The words carried on stand from `from` up to `end`; those of the next page come behind them. A page's sources are written over its homes
// when it is taken in, and the homes of the known pages after it stand.
fn push_along(
    table: &[u32; 90],
    geometry: Geometry,
    separators: &[u8],
    numbers: &[u32],
    words: &[u64],
    owners: &[u8],
    pool: &mut [u32],
    waiting: &mut [u64],
    planned: &mut [u8],
    number: u32,
    home: u32,
    page: usize,
    tested: usize,
) -> Reach
    requires enters { Enters geometry table.now (held separators.now numbers.now words.now owners.now) number home page }
    requires pool_len { (length pool.old ≡ geometry.parameters.pages * geometry.parameters.places) × (length waiting.old ≡ geometry.parameters.pages * geometry.parameters.places) }
    requires pages_in_bounds { geometry.parameters.pages ≤ length planned.old }
    requires known_to { KnownTo geometry.parameters geometry.growth (held separators.now numbers.now words.now owners.now) pool.old page tested }
    ensures { Plans geometry.parameters geometry.growth (held separators.now numbers.now words.now owners.now) number page pool.new planned.new result }
{
    let parameters = geometry.parameters;
    let pages = parameters.pages as usize;
    waiting[0] = page_separator::pack(home, number, numbers.len() + 1);
    let mut from = 0;
    let mut end = 1;
    for at in page..pages {
        match take_in(
            table, geometry, separators, numbers, words, owners, pool, waiting, at, end, tested,
        ) {
            Taken::Unsound => return Reach::Unsound(at),
            Taken::Crowded => return Reach::Overflows,
            Taken::Joined(reach) => {
                let most = separators[at] as u32;
                from = lower_page(
                    table, parameters, most, pool, waiting, planned, from, reach, at,
                );
                if from == reach {
                    return Reach::Ends(at);
                }
                end = reach;
            }
        }
    }
    Reach::Overflows
}

// A first page with room takes the star and carries nothing on. The pages from `page` up to the one before `tested` are known.
pub fn push(
    table: &[u32; 90],
    geometry: Geometry,
    separators: &[u8],
    numbers: &[u32],
    words: &[u64],
    owners: &[u8],
    pool: &mut [u32],
    waiting: &mut [u64],
    planned: &mut [u8],
    number: u32,
    home: u32,
    page: usize,
    tested: usize,
) -> Reach
    requires enters { Enters geometry table.now (held separators.now numbers.now words.now owners.now) number home page }
    requires pool_len { (length pool.old ≡ geometry.parameters.pages * geometry.parameters.places) × (length waiting.old ≡ geometry.parameters.pages * geometry.parameters.places) }
    requires pages_in_bounds { geometry.parameters.pages ≤ length planned.old }
    requires known_to { KnownTo geometry.parameters geometry.growth (held separators.now numbers.now words.now owners.now) pool.old page tested }
    ensures { Plans geometry.parameters geometry.growth (held separators.now numbers.now words.now owners.now) number page pool.new planned.new result }
{
    let places = geometry.parameters.places as usize;
    if numbers[page * places + places - 1] == 0 {
        fill_page(
            table, geometry, separators, numbers, words, owners, pool, waiting, planned, number,
            home, page,
        );
        return Reach::Ends(page);
    }
    push_along(
        table, geometry, separators, numbers, words, owners, pool, waiting, planned, number, home,
        page, tested,
    )
}
