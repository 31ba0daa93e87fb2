// The soundness of all pages, upward, for calls that take no pool: a stretch at a time.

#![tactic(auto)]

ghost use Rattle.std.specs.Prelude.{◌≡◌, ◌-◌, ◌*◌, ◌≤◌};
ghost use Rattle.placement.specs.Hash.{sound_at};
ghost use Rattle.placement.specs.Lent.{held};
ghost use Rattle.placement.specs.Ready.{Ready};
ghost use Rattle.reach.specs.Reach.{first_unsound_lem};
ghost use Rattle.soundness.specs.Stretch.{Lowest};

use hashing::Geometry;

// A stretch of pages, with the homes of their stars in a local list.
fn first_unsound(
    table: &[u32; 90],
    geometry: Geometry,
    separators: &[u8],
    numbers: &[u32],
    words: &[u64],
    owners: &[u8],
    from: usize,
    stop: usize,
) -> usize
    requires ready { Ready geometry table.now (held separators.now numbers.now words.now owners.now) }
    requires from_le_stop { (from ≤ stop) × (stop ≤ geometry.parameters.pages) }
    requires places_bound { (stop - from) * geometry.parameters.places ≤ 1024 }
    ensures { Lowest (sound_at geometry.parameters geometry.growth (held separators.now numbers.now words.now owners.now)) from stop result }
{
    let mut homes = [0u32; 1024];
    soundness::survey(
        table, geometry, separators, numbers, words, owners, &mut homes, 0, from, stop,
    )
}

// The lowest unsound page, or the number of pages.
pub fn lowest_unsound(
    table: &[u32; 90],
    geometry: Geometry,
    separators: &[u8],
    numbers: &[u32],
    words: &[u64],
    owners: &[u8],
) -> usize
    requires { Ready geometry table.now (held separators.now numbers.now words.now owners.now) }
    ensures { result ≡ first_unsound_lem geometry.parameters geometry.growth (held separators.now numbers.now words.now owners.now) 0 geometry.parameters.pages }
{
    let pages = geometry.parameters.pages as usize;
    let most = 1024 / geometry.parameters.places as usize;
    let mut page = 0;
    while page < pages {
        let stop = page + most.min(pages - page);
        let unsound = first_unsound(
            table, geometry, separators, numbers, words, owners, page, stop,
        );
        if unsound < stop {
            return unsound;
        }
        page = stop;
    }
    page
}
