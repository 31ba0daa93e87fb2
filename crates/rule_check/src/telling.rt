// A whole file checked: its pages are surveyed and tested by counts; where these tell of a difference, the file is planned anew and compared.
ghost use Rattle.std.specs.Prelude.{◌≡◌, suc, ◌+◌, ◌*◌, ◌≤◌, length};
ghost use Rattle.generator.specs.Shape.{first_multipliers_lem};
ghost use Rattle.hashing.specs.Geometry.{multiplier_of};
ghost use Rattle.placement.specs.Shape.{homes_of};
ghost use Rattle.placement.specs.Lent.{held};
ghost use Rattle.placement.specs.Ready.{Ready, Pooled};
ghost use Rattle.reach.specs.Reach.{first_unsound_lem};
ghost use Rattle.calls.specs.Shape.{spot_of};
ghost use Rattle.rule_check.specs.Verdicts.{verdict_for};

use comparison::{Spot, compare};
use hashing::Geometry;

// A clean file; the first page and place that differ from the rule over all pages, place b being the separator; or the lowest unsound page.
#[derive(Clone, Copy)]
pub enum Verdict {
    Clean,
    Differs { page: usize, place: usize },
    Unsound(usize),
}

// The first spot at which a file of sound pages differs from the rule. The pool holds the homes of the items.
fn compare_planned(
    geometry: Geometry,
    separators: &[u8],
    numbers: &[u32],
    words: &[u64],
    owners: &[u8],
    pool: &mut [u32],
    waiting: &mut [u64],
    poolowners: &mut [u8],
) -> Spot
    requires ready { Ready geometry (first_multipliers_lem (multiplier_of geometry.parameters)) (held separators.now numbers.now words.now owners.now) }
    requires pages_value { first_unsound_lem geometry.parameters geometry.growth (held separators.now numbers.now words.now owners.now) 0 geometry.parameters.pages ≡ geometry.parameters.pages }
    requires pool_value { pool.old ≡ homes_of geometry.parameters geometry.growth numbers.now }
    requires waiting_len { length waiting.old ≡ geometry.parameters.pages * geometry.parameters.places }
    requires poolowners_len { length poolowners.old ≡ geometry.parameters.pages * geometry.parameters.places }
    ensures place_value { result.page * suc geometry.parameters.places + result.place ≡ spot_of geometry.parameters geometry.growth (held separators.now numbers.now words.now owners.now) }
    ensures place_le_places { result.place ≤ geometry.parameters.places }
{
    let places = geometry.parameters.places as usize;
    let pages = geometry.parameters.pages as usize;
    let mut planned = [0u8; 1024];
    page_plan::plan(
        geometry.parameters,
        numbers,
        pool,
        waiting,
        &mut planned,
        0,
        pages,
        0,
        0,
    );
    plan_transfer::fetch(
        numbers,
        words,
        owners,
        pool,
        waiting,
        poolowners,
        0,
        pages * places,
        0,
        0,
        0,
    );
    compare(
        separators, numbers, words, owners, &planned, pool, waiting, poolowners, pages, places,
    )
}

// The file is only read. The pool's contents are free afterwards.
pub fn check_file(
    table: &[u32; 90],
    geometry: Geometry,
    separators: &[u8],
    numbers: &[u32],
    words: &[u64],
    owners: &[u8],
    pool: &mut [u32],
    waiting: &mut [u64],
    poolowners: &mut [u8],
) -> Verdict
    requires ready { Ready geometry table.now (held separators.now numbers.now words.now owners.now) }
    requires pooled { Pooled geometry.parameters pool.old waiting.old poolowners.old }
    ensures { result ≡ verdict_for geometry.parameters geometry.growth (held separators.now numbers.now words.now owners.now) }
{
    let pages = geometry.parameters.pages as usize;
    let unsound = reach::survey_pages(
        table, geometry, separators, numbers, words, owners, pool, 0, pages, pages,
    );
    if unsound < pages {
        return Verdict::Unsound(unsound);
    }
    if pages <= clean_test::first_raisable(geometry, separators, numbers, pool, 0, pages) {
        return Verdict::Clean;
    }
    let spot = compare_planned(
        geometry, separators, numbers, words, owners, pool, waiting, poolowners,
    );
    if spot.page < pages {
        return Verdict::Differs {
            page: spot.page,
            place: spot.place,
        };
    }
    Verdict::Clean
}
