// The entry of a star decided over its reach.
ghost use Rattle.std.specs.Prelude.{◌≡◌, ◌*◌, ◌≤◌, length};
ghost use Rattle.placement.specs.Lent.{held};
ghost use Rattle.decision.specs.Carried.{newcomer};
ghost use Rattle.entry_reach.specs.Entry.{Enters, DecidesEntry, Extends};

use crate::blocks::{Extent, Reach, plan_entry};
use decision::{Decision, Newcomer};
use hashing::Geometry;

// The page answered is the one that the planned separators name. The first block is the one from the star's home.
pub fn decide_stretch(
    table: &[u32; 90],
    geometry: Geometry,
    separators: &[u8],
    numbers: &[u32],
    words: &[u64],
    owners: &[u8],
    pool: &mut [u32],
    waiting: &mut [u64],
    planned: &mut [u8],
    star: Newcomer,
    first: Extent,
) -> Decision
    requires enters { Enters geometry table.now (held separators.now numbers.now words.now owners.now) star.number star.home star.page }
    requires pool_len { (length pool.old ≡ geometry.parameters.pages * geometry.parameters.places) × (length waiting.old ≡ geometry.parameters.pages * geometry.parameters.places) }
    requires pages_in_bounds { geometry.parameters.pages ≤ length planned.old }
    requires home_value { (star.home ≡ first.first) × Extends geometry.parameters geometry.growth (held separators.now numbers.now words.now owners.now) pool.old first }
    ensures { DecidesEntry geometry.parameters geometry.growth (held separators.now numbers.now words.now owners.now) (newcomer star) pool.new planned.new result }
{
    let pages = geometry.parameters.pages as usize;
    let from = star.home as usize;
    match plan_entry(
        table,
        geometry,
        separators,
        numbers,
        words,
        owners,
        pool,
        waiting,
        planned,
        star.number,
        star.home,
        first,
    ) {
        Reach::Unsound(page) => Decision::Unsound(page),
        Reach::Overflows => Decision::Overflows,
        Reach::Ends(last) => {
            let page = soundness::named_from(
                table,
                geometry,
                &planned[..pages],
                star.number,
                star.home,
            );
            Decision::Planned(from, last + 1 - from, page)
        }
    }
}
