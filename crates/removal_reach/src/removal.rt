// The removal of a star decided over its reach.
ghost use Rattle.std.specs.Prelude.{◌≡◌, ◌*◌, ◌≤◌, length};
ghost use Rattle.placement.specs.Hash.{hash_of};
ghost use Rattle.placement.specs.Lent.{held};
ghost use Rattle.reach.specs.Known.{Known};
ghost use Rattle.reach.specs.Reach.{removal_end};
ghost use Rattle.removal_reach.specs.Removal.{Removes, DecidesRemoval};

use crate::changed::plan_changed;
use crate::star::HeldStar;
use decision::Decision;
use hashing::Geometry;

// The stars from home to page `last`, planned anew without the star. Sound pages hold them all. The answer is the star's page.
fn decide_whole(
    table: &[u32; 90],
    geometry: Geometry,
    separators: &[u8],
    numbers: &[u32],
    words: &[u64],
    owners: &[u8],
    pool: &mut [u32],
    waiting: &mut [u64],
    planned: &mut [u8],
    star: HeldStar,
    last: usize,
    known: usize,
) -> Decision
    requires removes { Removes geometry table.now (held separators.now numbers.now words.now owners.now) star }
    requires pool_len { (length pool.old ≡ geometry.parameters.pages * geometry.parameters.places) × (length waiting.old ≡ geometry.parameters.pages * geometry.parameters.places) }
    requires pages_in_bounds { geometry.parameters.pages ≤ length planned.old }
    requires last_value { last ≡ removal_end (hash_of geometry.parameters geometry.growth) geometry.parameters.pages (held separators.now numbers.now words.now owners.now) star.home }
    requires known { Known geometry.parameters geometry.growth (held separators.now numbers.now words.now owners.now) pool.old known }
    ensures { DecidesRemoval geometry.parameters geometry.growth (held separators.now numbers.now words.now owners.now) star.number star.page pool.new planned.new result }
{
    let from = star.home as usize;
    let stop = last + 1;
    let bad = reach::survey_pages(
        table, geometry, separators, numbers, words, owners, pool, from, stop, known,
    );
    if bad < stop {
        return Decision::Unsound(bad);
    }
    let count = stop - from;
    page_plan::plan(
        geometry.parameters,
        numbers,
        pool,
        waiting,
        planned,
        from,
        count,
        star.number,
        0,
    );
    Decision::Planned(from, count, star.page)
}

// The plan of a long reach ends where it changes nothing more, if the pages from there on are the rule's.
fn decide_long(
    table: &[u32; 90],
    geometry: Geometry,
    separators: &[u8],
    numbers: &[u32],
    words: &[u64],
    owners: &[u8],
    pool: &mut [u32],
    waiting: &mut [u64],
    planned: &mut [u8],
    star: HeldStar,
    last: usize,
) -> Decision
    requires removes { Removes geometry table.now (held separators.now numbers.now words.now owners.now) star }
    requires pool_len { (length pool.old ≡ geometry.parameters.pages * geometry.parameters.places) × (length waiting.old ≡ geometry.parameters.pages * geometry.parameters.places) }
    requires pages_in_bounds { geometry.parameters.pages ≤ length planned.old }
    requires last_value { last ≡ removal_end (hash_of geometry.parameters geometry.growth) geometry.parameters.pages (held separators.now numbers.now words.now owners.now) star.home }
    requires known { Known geometry.parameters geometry.growth (held separators.now numbers.now words.now owners.now) pool.old star.page }
    ensures { DecidesRemoval geometry.parameters geometry.growth (held separators.now numbers.now words.now owners.now) star.number star.page pool.new planned.new result }
{
    let parameters = geometry.parameters;
    let from = star.home as usize;
    let stop = last + 1;
    let bad = reach::survey_pages(
        table, geometry, separators, numbers, words, owners, pool, from, stop, star.page,
    );
    if bad < stop {
        return Decision::Unsound(bad);
    }
    let count = stop - from;
    let number = star.number;
    let changed = plan_changed(
        parameters, numbers, pool, waiting, planned, from, count, number,
    );
    if clean_test::first_raisable(geometry, separators, numbers, pool, from + changed, stop)
        == stop
    {
        return Decision::Planned(from, changed, star.page);
    }
    // a planned page's homes are written over
    decide_whole(
        table,
        geometry,
        separators,
        numbers,
        words,
        owners,
        pool,
        waiting,
        planned,
        star,
        last,
        parameters.pages as usize,
    )
}

// The reach goes from home to the first page whose separator is 2^k − 1.
pub fn decide_removal(
    table: &[u32; 90],
    geometry: Geometry,
    separators: &[u8],
    numbers: &[u32],
    words: &[u64],
    owners: &[u8],
    pool: &mut [u32],
    waiting: &mut [u64],
    planned: &mut [u8],
    star: HeldStar,
) -> Decision
    requires removes { Removes geometry table.now (held separators.now numbers.now words.now owners.now) star }
    requires pool_len { (length pool.old ≡ geometry.parameters.pages * geometry.parameters.places) × (length waiting.old ≡ geometry.parameters.pages * geometry.parameters.places) }
    requires pages_in_bounds { geometry.parameters.pages ≤ length planned.old }
    requires known { Known geometry.parameters geometry.growth (held separators.now numbers.now words.now owners.now) pool.old star.page }
    ensures { DecidesRemoval geometry.parameters geometry.growth (held separators.now numbers.now words.now owners.now) star.number star.page pool.new planned.new result }
{
    let from = star.home as usize;
    let last = reach::stretch_end(separators, placement::top_of(geometry.parameters), from);
    // a short reach is planned sooner than tested
    if last - from < 8 {
        return decide_whole(
            table, geometry, separators, numbers, words, owners, pool, waiting, planned, star,
            last, star.page,
        );
    }
    decide_long(
        table, geometry, separators, numbers, words, owners, pool, waiting, planned, star, last,
    )
}
