// A growth done in steps: whether it is accepted, and one page of it written to a second set of pages. The file is only read.
ghost use Rattle.std.specs.Prelude.{◌≡◌, false, map, ◌+◌, ◌*◌, ◌≤◌, ◌<◌, length, take, drop};
ghost use Rattle.pages.specs.Page.{part};
ghost use Rattle.buffers.specs.Lists.{written};
ghost use Rattle.plan_transfer.specs.Sources.{named_item};
ghost use Rattle.hashing.specs.Geometry.{grown};
ghost use Rattle.placement.specs.Shape.{Sized};
ghost use Rattle.placement.specs.Lent.{held, before, after};
ghost use Rattle.placement.specs.Ready.{Ready, Pooled};
ghost use Rattle.growth_plan.specs.Growth.{Movable, growth_answer};
ghost use Rattle.growth_plan.specs.Step.{page_stepped, PlansStep};

use crate::planning::plan_all;
use hashing::Geometry;
use page_plan::Outcome;

// The answer of the growth, with the page given, which comes. Where the new page has room for the stars whose home it becomes,
// nothing is planned.
pub fn accept_growth(
    table: &[u32; 90],
    geometry: Geometry,
    separators: &[u8],
    numbers: &[u32],
    words: &[u64],
    owners: &[u8],
    pool: &mut [u32],
    waiting: &mut [u64],
    page: usize,
) -> Outcome
    requires ready { Ready geometry table.now (held separators.now numbers.now words.now owners.now) }
    requires pool_len { length pool.old ≡ geometry.parameters.pages * geometry.parameters.places }
    requires waiting_len { length waiting.old ≡ geometry.parameters.pages * geometry.parameters.places }
    requires movable { Movable false geometry.parameters geometry.growth }
    ensures { result ≡ growth_answer geometry.parameters geometry.growth (held separators.now numbers.now words.now owners.now) (grown geometry.parameters geometry.growth) page }
{
    let pages = geometry.parameters.pages as usize;
    let bad = reach::survey_pages(
        table, geometry, separators, numbers, words, owners, pool, 0, pages, pages,
    );
    if bad < pages {
        return Outcome::Unsound(bad);
    }
    if growth_in_place::is_spacious(table, geometry, separators, numbers, pool) {
        return Outcome::On(page);
    }
    let mut planned = [0u8; 1024];
    if !plan_all(table, geometry, false, numbers, pool, waiting, &mut planned) {
        return Outcome::Overflows;
    }
    Outcome::On(page)
}

// The same, with the sources of page `step` in the pool and its separator in `planned`. Where the new page has room, another one's block is
// all that is planned.
fn plan_step(
    table: &[u32; 90],
    geometry: Geometry,
    separators: &[u8],
    numbers: &[u32],
    words: &[u64],
    owners: &[u8],
    pool: &mut [u32],
    waiting: &mut [u64],
    planned: &mut [u8],
    step: usize,
    page: usize,
) -> Outcome
    requires ready { Ready geometry table.now (held separators.now numbers.now words.now owners.now) }
    requires pool_len { length pool.old ≡ geometry.parameters.pages * geometry.parameters.places }
    requires waiting_len { length waiting.old ≡ geometry.parameters.pages * geometry.parameters.places }
    requires movable { Movable false geometry.parameters geometry.growth }
    requires pages_in_bounds { (geometry.parameters.pages ≤ length planned.old) × (step < geometry.parameters.pages) }
    ensures value { result ≡ growth_answer geometry.parameters geometry.growth (held separators.now numbers.now words.now owners.now) (grown geometry.parameters geometry.growth) page }
    ensures plans_step { PlansStep geometry.parameters geometry.growth (held separators.now numbers.now words.now owners.now) pool.new planned.new step result }
{
    let pages = geometry.parameters.pages as usize;
    let bad = reach::survey_pages(
        table, geometry, separators, numbers, words, owners, pool, 0, pages, pages,
    );
    if bad < pages {
        return Outcome::Unsound(bad);
    }
    if growth_block::is_local(table, geometry, separators, numbers, pool, step) {
        growth_block::plan_block(
            table, geometry, separators, numbers, pool, waiting, planned, step,
        );
        return Outcome::On(page);
    }
    if !plan_all(table, geometry, false, numbers, pool, waiting, planned) {
        return Outcome::Overflows;
    }
    Outcome::On(page)
}

// Page `step` of the plan in the pool and in `planned`, written to a second set of pages through the pool.
fn write_planned(
    numbers: &[u32],
    words: &[u64],
    owners: &[u8],
    secondseparators: &mut [u8],
    secondnumbers: &mut [u32],
    secondwords: &mut [u64],
    secondowners: &mut [u8],
    pool: &mut [u32],
    waiting: &mut [u64],
    poolowners: &mut [u8],
    planned: &[u8],
    places: usize,
    step: usize,
)
    requires places_bound { (places ≤ 32) × (step < 1024) }
    requires step_in_bounds { (step < length secondseparators.old) × (step < length planned.now) }
    requires places_in_bounds { (step * places + places ≤ length secondnumbers.old) × (step * places + places ≤ length pool.old) }
    requires places_in_bounds_2 { (step * places + places ≤ length secondwords.old) × (step * places + places ≤ length waiting.old) }
    requires places_in_bounds_3 { (step * places + places ≤ length secondowners.old) × (step * places + places ≤ length poolowners.old) }
    ensures secondseparators_after { secondseparators.new ≡ written step (take 1 (drop step planned.now)) secondseparators.old }
    ensures secondnumbers_after { secondnumbers.new ≡ written (step * places) (map (named_item numbers.now 0) (part places step pool.old)) secondnumbers.old }
    ensures secondwords_after { secondwords.new ≡ written (step * places) (map (named_item words.now 0) (part places step pool.old)) secondwords.old }
    ensures secondowners_after { secondowners.new ≡ written (step * places) (map (named_item owners.now 0) (part places step pool.old)) secondowners.old }
{
    let at = step * places;
    plan_transfer::fetch(
        numbers, words, owners, pool, waiting, poolowners, at, places, 0, 0, 0,
    );
    buffers::copy(secondseparators, step, planned, step, 1);
    buffers::copy(secondnumbers, at, pool, at, places);
    buffers::copy(secondwords, at, waiting, at, places);
    buffers::copy(secondowners, at, poolowners, at, places);
}

// The growth planned anew as far as page `step` needs, and that page written to the second set of pages, whose other pages stay. The pool
// is scratch.
pub fn step_page(
    table: &[u32; 90],
    geometry: Geometry,
    separators: &[u8],
    numbers: &[u32],
    words: &[u64],
    owners: &[u8],
    secondseparators: &mut [u8],
    secondnumbers: &mut [u32],
    secondwords: &mut [u64],
    secondowners: &mut [u8],
    pool: &mut [u32],
    waiting: &mut [u64],
    poolowners: &mut [u8],
    step: usize,
    page: usize,
) -> Outcome
    requires ready { Ready geometry table.now (held separators.now numbers.now words.now owners.now) }
    requires sized { Sized geometry.parameters.places geometry.parameters.pages (held secondseparators.old secondnumbers.old secondwords.old secondowners.old) }
    requires pooled { Pooled geometry.parameters pool.old waiting.old poolowners.old }
    requires movable { Movable false geometry.parameters geometry.growth }
    requires step_lt_pages { step < geometry.parameters.pages }
    ensures value { result ≡ growth_answer geometry.parameters geometry.growth (held separators.now numbers.now words.now owners.now) (grown geometry.parameters geometry.growth) page }
    ensures secondowners_value { after secondseparators secondnumbers secondwords secondowners ≡ page_stepped geometry.parameters geometry.growth
        (held separators.now numbers.now words.now owners.now) (grown geometry.parameters geometry.growth) (before secondseparators secondnumbers secondwords secondowners) step }
{
    let places = geometry.parameters.places as usize;
    let mut planned = [0u8; 1024];
    match plan_step(
        table,
        geometry,
        separators,
        numbers,
        words,
        owners,
        pool,
        waiting,
        &mut planned,
        step,
        page,
    ) {
        Outcome::Unsound(bad) => Outcome::Unsound(bad),
        Outcome::Overflows => Outcome::Overflows,
        Outcome::On(new) => {
            write_planned(
                numbers,
                words,
                owners,
                secondseparators,
                secondnumbers,
                secondwords,
                secondowners,
                pool,
                waiting,
                poolowners,
                &planned,
                places,
                step,
            );
            Outcome::On(new)
        }
    }
}
