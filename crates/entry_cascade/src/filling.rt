// A cascade that ends where it begins: the page has room.
ghost use Rattle.std.specs.Prelude.{◌≡◌, ◌+◌, ◌-◌, ◌*◌, ◌≤◌, length, get_or};
ghost use Rattle.placement.specs.Lent.{held};
ghost use Rattle.entry_reach.specs.declared.blocks.Reach.TheVariants.{Ends};
ghost use Rattle.entry_reach.specs.Entry.{Enters};
ghost use Rattle.entry_cascade.specs.Cascade.{Plans};

use crate::arriving::append;
use hashing::Geometry;

// The page's stars and the new one all stay, under the stored separator: no signature is needed, and so no home.
pub fn fill_page(
    table: &[u32; 90],
    geometry: Geometry,
    separators: &[u8],
    numbers: &[u32],
    words: &[u64],
    owners: &[u8],
    pool: &mut [u32],
    waiting: &mut [u64],
    planned: &mut [u8],
    number: u32,
    home: u32,
    page: usize,
)
    requires enters { Enters geometry table.now (held separators.now numbers.now words.now owners.now) number home page }
    requires pool_len { (length pool.old ≡ geometry.parameters.pages * geometry.parameters.places) × (length waiting.old ≡ geometry.parameters.pages * geometry.parameters.places) }
    requires pages_in_bounds { geometry.parameters.pages ≤ length planned.old }
    requires places_value { get_or numbers.now (page * geometry.parameters.places + geometry.parameters.places - 1) 0 ≡ 0 }
    ensures { Plans geometry.parameters geometry.growth (held separators.now numbers.now words.now owners.now) number page pool.new planned.new (Ends page) }
{
    let places = geometry.parameters.places as usize;
    let at = page * places;
    let value = pages::page::load(numbers, words, owners, places, page);
    let homes = [0u32; 32];
    let mut slots = [0u64; 32];
    waiting[0] = page_separator::pack(home, number, numbers.len() + 1);
    let reach = append(waiting, &value.numbers, &homes, places, at, 1);
    page_plan::keep_all(waiting, 0, reach, &mut slots);
    planned[page] = separators[page];
    page_plan::store_sources(pool, &slots, at, places, reach);
}
