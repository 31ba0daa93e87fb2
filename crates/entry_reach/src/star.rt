// The entry of a star: decided, then carried out.
ghost use Rattle.std.specs.Prelude.{◌≡◌, false, ◌*◌, ◌≤◌, length};
ghost use Rattle.pages.specs.Page.{part, place_of};
ghost use Rattle.placement.specs.Lent.{held, before, after};
ghost use Rattle.placement.specs.Ready.{Pooled};
ghost use Rattle.reach.specs.Known.{Known};
ghost use Rattle.calls.specs.Shape.{stopped_file};
ghost use Rattle.decision.specs.Carried.{newcomer};
ghost use Rattle.entry_reach.specs.Entry.{Enters, DecidesEntry, entry_answer, entry_file};

use crate::blocks::block_from;
use crate::run::decide_run;
use crate::stretch::decide_stretch;
use decision::{Decision, Newcomer, carry_out, outcome_of};
use hashing::Geometry;
use page_plan::Outcome;

// The known page is the named one.
fn decide(
    table: &[u32; 90],
    geometry: Geometry,
    separators: &[u8],
    numbers: &[u32],
    words: &[u64],
    owners: &[u8],
    pool: &mut [u32],
    waiting: &mut [u64],
    planned: &mut [u8],
    star: Newcomer,
) -> Decision
    requires enters { Enters geometry table.now (held separators.now numbers.now words.now owners.now) star.number star.home star.page }
    requires pool_len { (length pool.old ≡ geometry.parameters.pages * geometry.parameters.places) × (length waiting.old ≡ geometry.parameters.pages * geometry.parameters.places) }
    requires pages_in_bounds { geometry.parameters.pages ≤ length planned.old }
    requires known { Known geometry.parameters geometry.growth (held separators.now numbers.now words.now owners.now) pool.old star.page }
    requires place_value { star.place ≡ place_of star.number (part geometry.parameters.places star.page numbers.now) }
    ensures { DecidesEntry geometry.parameters geometry.growth (held separators.now numbers.now words.now owners.now) (newcomer star) pool.new planned.new result }
{
    let from = star.home as usize;
    let first = block_from(geometry.parameters, separators, from, star.page);
    let last = first.last;
    // a shorter run is planned as soon as it is tested
    if last - from >= 8 {
        return decide_run(
            table, geometry, separators, numbers, words, owners, pool, waiting, planned, star, last,
        );
    }
    decide_stretch(
        table, geometry, separators, numbers, words, owners, pool, waiting, planned, star, first,
    )
}

// The entry of a star that the file does not hold, stopped after `limit` page stores. Its home page most often takes it alone.
pub fn enter_star(
    table: &[u32; 90],
    geometry: Geometry,
    separators: &mut [u8],
    numbers: &mut [u32],
    words: &mut [u64],
    owners: &mut [u8],
    pool: &mut [u32],
    waiting: &mut [u64],
    poolowners: &mut [u8],
    star: Newcomer,
    limit: usize,
) -> Outcome
    requires enters { Enters geometry table.now (held separators.old numbers.old words.old owners.old) star.number star.home star.page }
    requires pooled { Pooled geometry.parameters pool.old waiting.old poolowners.old }
    requires known { Known geometry.parameters geometry.growth (held separators.old numbers.old words.old owners.old) pool.old star.page }
    requires place_value { star.place ≡ place_of star.number (part geometry.parameters.places star.page numbers.old) }
    ensures value { result ≡ entry_answer geometry.parameters geometry.growth (before separators numbers words owners) (newcomer star) }
    ensures owners_value { after separators numbers words owners ≡ stopped_file false geometry.parameters (before separators numbers words owners)
        (entry_file geometry.parameters geometry.growth (before separators numbers words owners) (newcomer star)) limit }
{
    let parameters = geometry.parameters;
    let page = star.home as usize;
    if page_edit::takes_alone(parameters, separators, numbers, page) {
        let none = [0u8; 1];
        let place = star.place as usize;
        carry_out(
            parameters,
            separators,
            numbers,
            words,
            owners,
            pool,
            waiting,
            poolowners,
            &none,
            Decision::Put(page, place),
            star,
            limit,
            false,
        );
        return Outcome::On(page);
    }
    let mut planned = [0u8; 1024];
    let decision = decide(
        table,
        geometry,
        separators,
        numbers,
        words,
        owners,
        pool,
        waiting,
        &mut planned,
        star,
    );
    carry_out(
        parameters, separators, numbers, words, owners, pool, waiting, poolowners, &planned,
        decision, star, limit, false,
    );
    outcome_of(decision)
}
