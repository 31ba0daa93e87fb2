// The reach of an entry, planned block after block: a block ends at the first page whose stored separator is 2^k − 1, or at the last page.
ghost use Rattle.std.specs.Prelude.{◌≡◌, true, ℕ, ◌-◌, ◌*◌, ◌≤◌, ◌<◌, length, take};
ghost use Rattle.pages.specs.Position.{valid_number};
ghost use Rattle.placement.specs.Shape.{home_under};
ghost use Rattle.placement.specs.Lent.{held, before};
ghost use Rattle.placement.specs.Ready.{Ready};
ghost use Rattle.generator.specs.Generator.{top_of_lem};
ghost use Rattle.hashing.specs.Limits.{valid_parameters};
ghost use Rattle.reach.specs.Reach.{first_such, stored_top};
ghost use Rattle.page_separator.specs.Probes.{homes_up_to};
ghost use Rattle.entry_reach.specs.Entry.{Unheld, new_star_lem, reach_answer, Applies, Extends, PlansBlock};
ghost use Rattle.entry_reach.specs.Blocks.{PlansOnward};

use hashing::{Geometry, Parameters};

// The last page; the first unsound page; or a star is carried past the last page of all.
#[derive(Clone, Copy)]
pub enum Reach {
    Ends(usize),
    Unsound(usize),
    Overflows,
}

// How many words are carried past a block; its first unsound page; or its stars do not fit into the list of waiting stars.
#[derive(Clone, Copy)]
pub enum Block {
    Planned(usize),
    Unsound(usize),
    Crowded,
}

// A block's first and last page. Those below `surveyed`, and page `known`, were found sound before, and the pool holds their homes.
#[derive(Clone, Copy)]
pub struct Extent {
    pub first: usize,
    pub last: usize,
    pub surveyed: usize,
    pub known: usize,
}

// The block from page `first` on, of which at most page `known` was tested before.
pub fn block_from(parameters: Parameters, separators: &[u8], first: usize, known: usize) -> Extent
    requires parameters_value { valid_parameters parameters ≡ true }
    requires first_in_bounds { first < length separators.now }
    ensures { result ≡ record { first = first; last = first_such (stored_top separators.now (top_of_lem parameters.bits)) first (length separators.now - 1 - first); surveyed = first; known = known } }
{
    let last = reach::stretch_end(separators, placement::top_of(parameters), first);
    Extent {
        first,
        last,
        surveyed: first,
        known,
    }
}

// The block from page `first` to page `last`, of which the pages below `surveyed` were tested before.
pub fn surveyed_block(parameters: Parameters, first: usize, last: usize, surveyed: usize) -> Extent
    ensures { result ≡ record { first = first; last = last; surveyed = surveyed; known = parameters.pages } }
{
    let known = parameters.pages as usize;
    Extent {
        first,
        last,
        surveyed,
        known,
    }
}

// The block with the `incoming` words at the front of `waiting`.
fn plan_block(
    table: &[u32; 90],
    geometry: Geometry,
    separators: &[u8],
    numbers: &[u32],
    words: &[u64],
    owners: &[u8],
    pool: &mut [u32],
    waiting: &mut [u64],
    planned: &mut [u8],
    block: Extent,
    incoming: usize,
) -> Block
    requires ready { Ready geometry table.now (held separators.now numbers.now words.now owners.now) }
    requires pool_len { (length pool.old ≡ geometry.parameters.pages * geometry.parameters.places) × (length waiting.old ≡ geometry.parameters.pages * geometry.parameters.places) }
    requires pages_in_bounds { geometry.parameters.pages ≤ length planned.old }
    requires incoming_in_bounds { (incoming ≤ length waiting.old) × (homes_up_to block.first (take incoming waiting.old) ≡ true) }
    requires extends { Extends geometry.parameters geometry.growth (held separators.now numbers.now words.now owners.now) pool.old block }
    ensures { PlansBlock geometry (held separators.now numbers.now words.now owners.now) block.first incoming pool waiting planned result }
{
    let parameters = geometry.parameters;
    let places = parameters.places as usize;
    let lo = block.first;
    let stop = block.last + 1;
    let unsound = reach::survey_pages(
        table,
        geometry,
        separators,
        numbers,
        words,
        owners,
        pool,
        block.surveyed,
        stop,
        block.known,
    );
    if unsound < stop {
        return Block::Unsound(unsound);
    }
    if waiting.len() - incoming < page_plan::count_stars(numbers, lo * places, stop * places, 0) {
        return Block::Crowded;
    }
    let left = page_plan::plan(
        parameters,
        numbers,
        pool,
        waiting,
        planned,
        lo,
        stop - lo,
        0,
        incoming,
    );
    Block::Planned(left)
}

// Plans block after block, from `first` on, with the `incoming` words at the front of `waiting`, until nothing is carried on.
pub fn plan_onward(
    table: &[u32; 90],
    geometry: Geometry,
    separators: &[u8],
    numbers: &[u32],
    words: &[u64],
    owners: &[u8],
    pool: &mut [u32],
    waiting: &mut [u64],
    planned: &mut [u8],
    first: Extent,
    incoming: usize,
) -> Reach
    requires ready { Ready geometry table.now (held separators.now numbers.now words.now owners.now) }
    requires pool_len { (length pool.old ≡ geometry.parameters.pages * geometry.parameters.places) × (length waiting.old ≡ geometry.parameters.pages * geometry.parameters.places) }
    requires pages_in_bounds { geometry.parameters.pages ≤ length planned.old }
    requires incoming_in_bounds { (incoming ≤ length waiting.old) × (homes_up_to first.first (take incoming waiting.old) ≡ true) }
    requires extends { Extends geometry.parameters geometry.growth (held separators.now numbers.now words.now owners.now) pool.old first }
    ensures { PlansOnward geometry (held separators.now numbers.now words.now owners.now) first.first incoming pool waiting planned result }
{
    let pages = geometry.parameters.pages as usize;
    let mut block = first;
    let mut carried = incoming;
    loop {
        match plan_block(
            table, geometry, separators, numbers, words, owners, pool, waiting, planned, block,
            carried,
        ) {
            Block::Unsound(page) => return Reach::Unsound(page),
            Block::Crowded => return Reach::Overflows,
            Block::Planned(left) => {
                if left == 0 {
                    return Reach::Ends(block.last);
                }
                let next = block.last + 1;
                if next == pages {
                    return Reach::Overflows;
                }
                // a planned block's homes are written over
                block = block_from(geometry.parameters, separators, next, pages);
                carried = left;
            }
        }
    }
}

// Plans the reach, from its home on, of the entry of a number that the file does not hold. The pool gets the sources of the reach's places and `planned` its separators;
// the new star's source is the one past the items.
pub fn plan_entry(
    table: &[u32; 90],
    geometry: Geometry,
    separators: &[u8],
    numbers: &[u32],
    words: &[u64],
    owners: &[u8],
    pool: &mut [u32],
    waiting: &mut [u64],
    planned: &mut [u8],
    number: u32,
    home: u32,
    first: Extent,
) -> Reach
    requires ready { Ready geometry table.now (held separators.now numbers.now words.now owners.now) }
    requires pool_len { (length pool.old ≡ geometry.parameters.pages * geometry.parameters.places) × (length waiting.old ≡ geometry.parameters.pages * geometry.parameters.places) }
    requires pages_in_bounds { geometry.parameters.pages ≤ length planned.old }
    requires number_value { valid_number number ≡ true }
    requires unheld { Unheld geometry.parameters geometry.growth (held separators.now numbers.now words.now owners.now) number }
    requires home_value { (home ≡ home_under geometry number) × (home ≡ first.first) }
    requires extends { Extends geometry.parameters geometry.growth (held separators.now numbers.now words.now owners.now) pool.old first }
    ensures by_index { (word owner : ℕ) → result ≡ reach_answer geometry.parameters geometry.growth (held separators.now numbers.now words.now owners.now) (new_star_lem number word owner) }
    ensures applies { Applies geometry.parameters geometry.growth (held separators.now numbers.now words.now owners.now) number pool.new planned.new result }
{
    waiting[0] = page_separator::pack(home, number, numbers.len() + 1);
    plan_onward(
        table, geometry, separators, numbers, words, owners, pool, waiting, planned, first, 1,
    )
}
