// An entry into a long run of pages that are the rule's. A run goes from a star's home to the first page whose stored separator is 2^k − 1, or page M−1.
ghost use Rattle.std.specs.Prelude.{◌≡◌, ◌*◌, ◌≤◌, length};
ghost use Rattle.pages.specs.Page.{part, place_of};
ghost use Rattle.placement.specs.Lent.{held};
ghost use Rattle.reach.specs.Known.{Known};
ghost use Rattle.decision.specs.Carried.{newcomer};
ghost use Rattle.entry_reach.specs.Entry.{Enters, DecidesEntry, block_end};

use crate::blocks::surveyed_block;
use crate::newcomers::decide_clean;
use crate::stretch::decide_stretch;
use decision::{Decision, Newcomer};
use hashing::Geometry;

// Where the run's pages are the rule's, only newcomers move; else the whole reach is planned. The known page is the named one.
pub fn decide_run(
    table: &[u32; 90],
    geometry: Geometry,
    separators: &[u8],
    numbers: &[u32],
    words: &[u64],
    owners: &[u8],
    pool: &mut [u32],
    waiting: &mut [u64],
    planned: &mut [u8],
    star: Newcomer,
    last: usize,
) -> Decision
    requires enters { Enters geometry table.now (held separators.now numbers.now words.now owners.now) star.number star.home star.page }
    requires pool_len { (length pool.old ≡ geometry.parameters.pages * geometry.parameters.places) × (length waiting.old ≡ geometry.parameters.pages * geometry.parameters.places) }
    requires pages_in_bounds { geometry.parameters.pages ≤ length planned.old }
    requires known { Known geometry.parameters geometry.growth (held separators.now numbers.now words.now owners.now) pool.old star.page }
    requires place_value { star.place ≡ place_of star.number (part geometry.parameters.places star.page numbers.now) }
    requires last_value { last ≡ block_end geometry.parameters geometry.growth (held separators.now numbers.now words.now owners.now) star.home }
    ensures { DecidesEntry geometry.parameters geometry.growth (held separators.now numbers.now words.now owners.now) (newcomer star) pool.new planned.new result }
{
    let from = star.home as usize;
    let stop = last + 1;
    let unsound = reach::survey_pages(
        table, geometry, separators, numbers, words, owners, pool, from, stop, star.page,
    );
    if unsound < stop {
        return Decision::Unsound(unsound);
    }
    if clean_test::first_raisable(geometry, separators, numbers, pool, from, stop) < stop {
        let first = surveyed_block(geometry.parameters, from, last, stop);
        return decide_stretch(
            table, geometry, separators, numbers, words, owners, pool, waiting, planned, star,
            first,
        );
    }
    decide_clean(
        table, geometry, separators, numbers, words, owners, pool, waiting, planned, star, last,
    )
}
