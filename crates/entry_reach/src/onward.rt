// The entry of a star whose newcomers leave a run of pages that are the rule's.
ghost use Rattle.std.specs.Prelude.{◌≡◌, ◌*◌, ◌≤◌, length, take};
ghost use Rattle.placement.specs.Lent.{held};
ghost use Rattle.decision.specs.Carried.{newcomer};
ghost use Rattle.entry_reach.specs.Entry.{Enters, DecidesEntry};
ghost use Rattle.entry_reach.specs.Blocks.{LeavesRun};

use crate::blocks::{Reach, block_from, plan_onward};
use crate::newcomers::name_page;
use decision::{Decision, Newcomer};
use hashing::Geometry;

// The pages from the star's to `last`, where the run ends, are planned; the first `carried` words of `waiting` are carried past them.
pub fn decide_onward(
    table: &[u32; 90],
    geometry: Geometry,
    separators: &[u8],
    numbers: &[u32],
    words: &[u64],
    owners: &[u8],
    pool: &mut [u32],
    waiting: &mut [u64],
    planned: &mut [u8],
    star: Newcomer,
    last: usize,
    carried: usize,
) -> Decision
    requires enters { Enters geometry table.now (held separators.now numbers.now words.now owners.now) star.number star.home star.page }
    requires pool_len { (length pool.old ≡ geometry.parameters.pages * geometry.parameters.places) × (length waiting.old ≡ geometry.parameters.pages * geometry.parameters.places) }
    requires pages_in_bounds { geometry.parameters.pages ≤ length planned.old }
    requires carried_in_bounds { carried ≤ length waiting.old }
    requires leaves_run { LeavesRun geometry.parameters geometry.growth (held separators.now numbers.now words.now owners.now) star.number star.page last
        pool.old planned.old (take carried waiting.old) }
    ensures { DecidesEntry geometry.parameters geometry.growth (held separators.now numbers.now words.now owners.now) (newcomer star) pool.new planned.new result }
{
    let pages = geometry.parameters.pages as usize;
    let next = last + 1;
    if next == pages {
        return Decision::Overflows;
    }
    let block = block_from(geometry.parameters, separators, next, pages);
    match plan_onward(
        table, geometry, separators, numbers, words, owners, pool, waiting, planned, block, carried,
    ) {
        Reach::Unsound(page) => Decision::Unsound(page),
        Reach::Overflows => Decision::Overflows,
        Reach::Ends(end) => {
            let page = name_page(
                table,
                geometry,
                separators,
                planned,
                star.number,
                star.home,
                star.page,
                end,
            );
            let count = end + 1 - star.page;
            Decision::Planned(star.page, count, page)
        }
    }
}
