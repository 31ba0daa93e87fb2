// An entry into a run of pages that are the rule's: only newcomers move, from page to page.
ghost use Rattle.std.specs.Prelude.{◌≡◌, true, ◌++◌, ◌+◌, ◌-◌, ◌*◌, ◌^◌, ◌≤◌, ◌<◌, length, take, drop};
ghost use Rattle.std.proofs.Math.Seq.{slice};
ghost use Rattle.buffers.specs.Lists.{written};
ghost use Rattle.hashing.specs.Limits.{valid_parameters};
ghost use Rattle.pages.specs.Page.{part, place_of};
ghost use Rattle.pages.specs.Shape.{stretch};
ghost use Rattle.placement.specs.Hash.{named_page_lem};
ghost use Rattle.placement.specs.Shape.{home_under};
ghost use Rattle.placement.specs.Lent.{held};
ghost use Rattle.placement.specs.Ready.{Signers, Homing, Ready};
ghost use Rattle.reach.specs.Known.{Known};
ghost use Rattle.page_separator.specs.Lists.{all_below};
ghost use Rattle.page_separator.specs.Probes.{Probing, homes_up_to};
ghost use Rattle.page_plan.specs.Gather.{stars_in, stretch_words, groups_below};
ghost use Rattle.decision.specs.Carried.{newcomer};
ghost use Rattle.entry_reach.specs.Entry.{Enters, DecidesEntry, KnownTo};
ghost use Rattle.entry_reach.specs.Pushing.{Lowered, PushesPage, PushesTo, Ruled, is_vacant};

use crate::blocks::surveyed_block;
use crate::onward::decide_onward;
use crate::stretch::decide_stretch;
use decision::{Decision, Newcomer};
use hashing::{Geometry, Parameters};

// Where the words that are carried on start, and where those that have come end.
#[derive(Clone, Copy)]
pub struct Onward {
    pub from: usize,
    pub reach: usize,
}

// The last page that newcomers come to; or how many words are carried past the run.
#[derive(Clone, Copy)]
pub enum Pushing {
    Ends(usize),
    Leaves(usize),
}

// The words of the page's stars, whose homes the pool holds, behind the first `end`; the answer is where they end.
fn join_page(
    numbers: &[u32],
    pool: &[u32],
    waiting: &mut [u64],
    places: usize,
    page: usize,
    end: usize,
) -> usize
    requires places_bound { (places ≤ 32) × (page < 1024) }
    requires places_in_bounds { ((page + 1) * places ≤ length numbers.now) × ((page + 1) * places ≤ length pool.now) }
    requires numbers_value { all_below (2 ^ 31) (stretch places page 1 numbers.now) ≡ true }
    requires pool_value { all_below (page + 1) (stretch places page 1 pool.now) ≡ true }
    requires pool_value_2 { groups_below page 1 (stretch_words places page 1 0 numbers.now pool.now) ≡ true }
    requires end_bound { (end ≤ 32768) × (end + stars_in 0 (stretch places page 1 numbers.now) ≤ length waiting.old) }
    ensures value { result ≡ end + length (stretch_words places page 1 0 numbers.now pool.now) }
    ensures waiting_after { take result waiting.new ≡ take end waiting.old ++ stretch_words places page 1 0 numbers.now pool.now }
{
    let mut ends = [0u32; 1];
    page_plan::gather(numbers, pool, waiting, &mut ends, places, page, 1, 0, end)
}

// Settles the page under its stored separator, `most`. The words carried on stand from the answer up to `reach`.
pub fn lower_page(
    table: &[u32; 90],
    parameters: Parameters,
    most: u32,
    pool: &mut [u32],
    waiting: &mut [u64],
    planned: &mut [u8],
    from: usize,
    reach: usize,
    page: usize,
) -> usize
    requires signers { Signers parameters table.now }
    requires probing { Probing page from reach waiting.old }
    requires most_bound { (most ≤ 255) × ((page < length planned.old) × (page * parameters.places + parameters.places ≤ length pool.old)) }
    ensures { Lowered parameters page most (slice from reach waiting.old) reach
        pool.old pool.new planned.old planned.new waiting.new result }
{
    let places = parameters.places as usize;
    let mut slots = [0u64; 32];
    let settled = page_plan::settle_under(
        table, parameters, most, waiting, from, reach, page, &mut slots,
    );
    planned[page] = settled.separator as u8;
    page_plan::store_sources(pool, &slots, page * places, places, settled.kept);
    settled.from
}

// The page's stars and the words from `from` up to `end` meet. What the page keeps goes to the pool, over its homes, and to `planned`.
fn push_page(
    table: &[u32; 90],
    geometry: Geometry,
    separators: &[u8],
    numbers: &[u32],
    words: &[u64],
    owners: &[u8],
    pool: &mut [u32],
    waiting: &mut [u64],
    planned: &mut [u8],
    page: usize,
    from: usize,
    end: usize,
) -> Onward
    requires ready { Ready geometry table.now (held separators.now numbers.now words.now owners.now) }
    requires pool_len { (length pool.old ≡ geometry.parameters.pages * geometry.parameters.places) × (length waiting.old ≡ geometry.parameters.pages * geometry.parameters.places) }
    requires pages_in_bounds { (geometry.parameters.pages ≤ length planned.old) × (page < geometry.parameters.pages) }
    requires known { Known geometry.parameters geometry.growth (held separators.now numbers.now words.now owners.now) pool.old page }
    requires from_le_end { (from ≤ end) × ((end + geometry.parameters.places ≤ length waiting.old) × (homes_up_to page (slice from end waiting.old) ≡ true)) }
    ensures { PushesPage geometry (held separators.now numbers.now words.now owners.now) page from end pool waiting planned result }
{
    let parameters = geometry.parameters;
    let places = parameters.places as usize;
    let stored = separators[page] as u32;
    let reach = join_page(numbers, pool, waiting, places, page, end);
    let on = lower_page(
        table, parameters, stored, pool, waiting, planned, from, reach, page,
    );
    Onward { from: on, reach }
}

// The words from `from` up to `end`, moved to the front.
fn move_front(waiting: &mut [u64], from: usize, end: usize) -> usize
    requires { (from ≤ end) × (end ≤ length waiting.old) }
    ensures value { result ≡ end - from }
    ensures waiting_after { take result waiting.new ≡ slice from end waiting.old }
{
    let left = end - from;
    buffers::move_down(waiting, 0, from, left);
    left
}

// Newcomers pushed from the star's page up to `last`. The pages up to it are known; words carried past it stand at the front of the list.
fn push_within(
    table: &[u32; 90],
    geometry: Geometry,
    separators: &[u8],
    numbers: &[u32],
    words: &[u64],
    owners: &[u8],
    pool: &mut [u32],
    waiting: &mut [u64],
    planned: &mut [u8],
    star: Newcomer,
    last: usize,
) -> Pushing
    requires enters { Enters geometry table.now (held separators.now numbers.now words.now owners.now) star.number star.home star.page }
    requires pool_len { (length pool.old ≡ geometry.parameters.pages * geometry.parameters.places) × (length waiting.old ≡ geometry.parameters.pages * geometry.parameters.places) }
    requires pages_in_bounds { geometry.parameters.pages ≤ length planned.old }
    requires page_le_last { (star.page ≤ last) × ((last < geometry.parameters.pages) × (last + 1 - star.page < geometry.parameters.pages)) }
    requires known_to { KnownTo geometry.parameters geometry.growth (held separators.now numbers.now words.now owners.now) pool.old star.page (last + 1) }
    ensures { PushesTo geometry.parameters geometry.growth (held separators.now numbers.now words.now owners.now) star.number star.page last
        pool.new planned.new waiting.new result }
{
    waiting[0] = page_separator::pack(star.home, star.number, numbers.len() + 1);
    let mut from = 0;
    let mut end = 1;
    for at in star.page..last + 1 {
        let next = push_page(
            table, geometry, separators, numbers, words, owners, pool, waiting, planned, at, from,
            end,
        );
        from = next.from;
        end = next.reach;
        if from == end {
            return Pushing::Ends(at);
        }
    }
    Pushing::Leaves(move_front(waiting, from, end))
}

// The page that holds the star, by the planned separators of the pages from `page` to `end` and the stored ones of all others, which `planned` gets.
pub fn name_page(
    table: &[u32; 90],
    geometry: Geometry,
    separators: &[u8],
    planned: &mut [u8],
    number: u32,
    home: u32,
    page: usize,
    end: usize,
) -> usize
    requires homing { Homing geometry table.now }
    requires separators_len { (length separators.now ≡ geometry.parameters.pages) × (geometry.parameters.pages ≤ length planned.old) }
    requires page_le_end { (page ≤ end) × (end < geometry.parameters.pages) }
    requires home_value { home ≡ home_under geometry number }
    ensures value { result ≡ named_page_lem geometry.parameters geometry.growth (written page (take (end + 1 - page) (drop page planned.old)) separators.now) number }
    ensures planned_unchanged { take (end + 1 - page) (drop page planned.new) ≡ take (end + 1 - page) (drop page planned.old) }
{
    let pages = geometry.parameters.pages as usize;
    let stop = end + 1;
    buffers::copy(planned, 0, separators, 0, page);
    buffers::copy(planned, stop, separators, stop, pages - stop);
    soundness::named_from(table, geometry, &planned[..pages], number, home)
}

// Whether the page's last place is empty.
fn has_room(parameters: Parameters, numbers: &[u32], page: usize) -> bool
    requires parameters_value { valid_parameters parameters ≡ true }
    requires page_bound { page < 1024 }
    requires places_in_bounds { page * parameters.places + parameters.places ≤ length numbers.now }
    ensures { result ≡ is_vacant parameters numbers.now page }
{
    let places = parameters.places as usize;
    let end = places - 1;
    numbers[page * places + end] == 0
}

// Only newcomers move: the star alone if its own page has room. Where they leave the run, the reach is planned from there on.
pub fn decide_clean(
    table: &[u32; 90],
    geometry: Geometry,
    separators: &[u8],
    numbers: &[u32],
    words: &[u64],
    owners: &[u8],
    pool: &mut [u32],
    waiting: &mut [u64],
    planned: &mut [u8],
    star: Newcomer,
    last: usize,
) -> Decision
    requires enters { Enters geometry table.now (held separators.now numbers.now words.now owners.now) star.number star.home star.page }
    requires pool_len { (length pool.old ≡ geometry.parameters.pages * geometry.parameters.places) × (length waiting.old ≡ geometry.parameters.pages * geometry.parameters.places) }
    requires pages_in_bounds { geometry.parameters.pages ≤ length planned.old }
    requires place_value { star.place ≡ place_of star.number (part geometry.parameters.places star.page numbers.now) }
    requires ruled { Ruled geometry.parameters geometry.growth (held separators.now numbers.now words.now owners.now) pool.old star.number last }
    ensures { DecidesEntry geometry.parameters geometry.growth (held separators.now numbers.now words.now owners.now) (newcomer star) pool.new planned.new result }
{
    if has_room(geometry.parameters, numbers, star.page) {
        let place = star.place as usize;
        return Decision::Put(star.page, place);
    }
    let stop = last + 1;
    // the words of all pages and the star's do not fit into the list
    if stop - star.page == geometry.parameters.pages as usize {
        let from = star.home as usize;
        let first = surveyed_block(geometry.parameters, from, last, stop);
        return decide_stretch(
            table, geometry, separators, numbers, words, owners, pool, waiting, planned, star,
            first,
        );
    }
    match push_within(
        table, geometry, separators, numbers, words, owners, pool, waiting, planned, star, last,
    ) {
        Pushing::Leaves(carried) => decide_onward(
            table, geometry, separators, numbers, words, owners, pool, waiting, planned, star,
            last, carried,
        ),
        Pushing::Ends(end) => {
            let page = name_page(
                table,
                geometry,
                separators,
                planned,
                star.number,
                star.home,
                star.page,
                end,
            );
            let count = end + 1 - star.page;
            Decision::Planned(star.page, count, page)
        }
    }
}
