// Growth by one page and its undoing: all stars placed anew under the next growth state, or `back` under the one before.
ghost use Rattle.std.specs.Prelude.{◌≡◌, ◌+◌, ◌≤◌, ◌<◌, length, true, false};
ghost use Rattle.hashing.specs.Geometry.{grown};
ghost use Rattle.hashing.specs.Limits.{valid_parameters, valid_growth};
ghost use Rattle.placement.specs.Shape.{homes_of};
ghost use Rattle.placement.specs.Lent.{held, before, after};
ghost use Rattle.placement.specs.Ready.{Ready, Pooled};
ghost use Rattle.reach.specs.Reach.{first_unsound_lem};
ghost use Rattle.clean_test.specs.Raising.{Homed};
ghost use Rattle.growth_plan.specs.Growth.{state_after, Movable, GrowsInPlace, growth_answer, growth_file};
ghost use Rattle.growth_plan.specs.Shrinking.{Simple, MovesOwn};

use crate::planning::plan_all;
use hashing::Geometry;
use page_plan::Outcome;

// The stars of all pages, which are sound, placed anew under that growth state. The pool holds the homes of the items under this one.
fn replace_all(
    table: &[u32; 90],
    geometry: Geometry,
    back: bool,
    separators: &mut [u8],
    numbers: &mut [u32],
    words: &mut [u64],
    owners: &mut [u8],
    pool: &mut [u32],
    waiting: &mut [u64],
    poolowners: &mut [u8],
    page: usize,
) -> Outcome
    requires ready { Ready geometry table.now (held separators.old numbers.old words.old owners.old) }
    requires pooled { Pooled geometry.parameters pool.old waiting.old poolowners.old }
    requires movable { Movable back geometry.parameters geometry.growth }
    requires pages_value { first_unsound_lem geometry.parameters geometry.growth (held separators.old numbers.old words.old owners.old) 0 geometry.parameters.pages ≡ geometry.parameters.pages }
    requires pool_value { pool.old ≡ homes_of geometry.parameters geometry.growth numbers.old }
    ensures value { result ≡ growth_answer geometry.parameters geometry.growth (before separators numbers words owners) (state_after back geometry.parameters geometry.growth) page }
    ensures owners_value { after separators numbers words owners ≡ growth_file geometry.parameters geometry.growth
        (before separators numbers words owners) (state_after back geometry.parameters geometry.growth) }
{
    let mut planned = [0u8; 1024];
    if !plan_all(table, geometry, back, numbers, pool, waiting, &mut planned) {
        return Outcome::Overflows;
    }
    let places = geometry.parameters.places as usize;
    let pages = geometry.parameters.pages as usize;
    plan_transfer::apply(
        separators, numbers, words, owners, pool, waiting, poolowners, &planned, places, 0, pages,
        0, 0, 0,
    );
    Outcome::On(page)
}

// A growth in place, where the new page has room for the stars whose home it becomes: they are moved there, and then only blocks of several
// pages are placed anew. If it has not, the answer is no, and nothing is changed.
fn grow_in_place(
    table: &[u32; 90],
    geometry: Geometry,
    separators: &mut [u8],
    numbers: &mut [u32],
    words: &mut [u64],
    owners: &mut [u8],
    pool: &mut [u32],
    waiting: &mut [u64],
    poolowners: &mut [u8],
) -> bool
    requires ready { Ready geometry table.now (held separators.old numbers.old words.old owners.old) }
    requires pooled { Pooled geometry.parameters pool.old waiting.old poolowners.old }
    requires movable { Movable false geometry.parameters geometry.growth }
    requires pages_value { first_unsound_lem geometry.parameters geometry.growth (held separators.old numbers.old words.old owners.old) 0 geometry.parameters.pages ≡ geometry.parameters.pages }
    requires pool_value { pool.old ≡ homes_of geometry.parameters geometry.growth numbers.old }
    ensures { GrowsInPlace geometry.parameters geometry.growth (grown geometry.parameters geometry.growth) (before separators numbers words owners)
        (after separators numbers words owners) pool.old pool.new result }
{
    if !growth_in_place::move_stars(table, geometry, separators, numbers, words, owners, pool) {
        return false;
    }
    let parameters = geometry.parameters;
    let growth = hashing::grown(geometry);
    growth_in_place::replace_blocks(
        Geometry { parameters, growth },
        separators,
        numbers,
        words,
        owners,
        pool,
        waiting,
        poolowners,
    );
    true
}

// A growth: in place, or all pages planned anew.
fn grow(
    table: &[u32; 90],
    geometry: Geometry,
    separators: &mut [u8],
    numbers: &mut [u32],
    words: &mut [u64],
    owners: &mut [u8],
    pool: &mut [u32],
    waiting: &mut [u64],
    poolowners: &mut [u8],
    page: usize,
) -> Outcome
    requires ready { Ready geometry table.now (held separators.old numbers.old words.old owners.old) }
    requires pooled { Pooled geometry.parameters pool.old waiting.old poolowners.old }
    requires movable { Movable false geometry.parameters geometry.growth }
    ensures value { result ≡ growth_answer geometry.parameters geometry.growth (before separators numbers words owners) (state_after false geometry.parameters geometry.growth) page }
    ensures owners_value { after separators numbers words owners ≡ growth_file geometry.parameters geometry.growth
        (before separators numbers words owners) (state_after false geometry.parameters geometry.growth) }
{
    let pages = geometry.parameters.pages as usize;
    let bad = reach::survey_pages(
        table, geometry, separators, numbers, words, owners, pool, 0, pages, pages,
    );
    if bad < pages {
        return Outcome::Unsound(bad);
    }
    if grow_in_place(
        table, geometry, separators, numbers, words, owners, pool, waiting, poolowners,
    ) {
        return Outcome::On(page);
    }
    replace_all(
        table, geometry, false, separators, numbers, words, owners, pool, waiting, poolowners, page,
    )
}

// How many pages in a row have overflowed, up to one with this separator: one more, or none if it is the greatest.
fn run_with(run: usize, separator: u8, top: u8) -> usize
    requires { run < 1024 }
    ensures { result ≤ run + 1 }
{
    if top <= separator {
        return 0;
    }
    run + 1
}

// The most pages in a row that have overflowed.
fn longest_run(separators: &[u8], top: u8) -> usize
    requires { length separators.now ≤ 1024 }
{
    let mut longest: usize = 0;
    let mut run = 0;
    for &separator in separators {
        run = run_with(run, separator, top);
        longest = longest.max(run);
    }
    longest
}

// Whether the page that a shrinking gives back has not overflowed, and all pages are the rule's; `homes` are those of the items. Where a star
// may have to pass many pages, as many as there are for each place of a page, planning all of them is not slower: the answer is no.
fn is_simple(geometry: Geometry, separators: &[u8], numbers: &[u32], homes: &[u32]) -> bool
    requires parameters_value { valid_parameters geometry.parameters ≡ true }
    requires growth_value { valid_growth geometry.parameters geometry.growth ≡ true }
    requires homed { Homed geometry separators.now numbers.now homes.now 0 geometry.parameters.pages }
    ensures { result ≡ true → Simple geometry separators.now numbers.now }
{
    let pages = geometry.parameters.pages as usize;
    let page = geometry.highest_address() as usize;
    let top = placement::top_of(geometry.parameters);
    if separators[page] != top {
        return false;
    }
    if pages / (geometry.parameters.places as usize) < longest_run(separators, top) {
        return false;
    }
    clean_test::first_raisable(geometry, separators, numbers, homes, 0, pages) == pages
}

// A shrinking of such pages: only the own stars of the page given back get another home. They are taken from it, which leaves all others where they
// are, and entered one by one under the growth state before. If not all fit, the pages grow again, and the stars left are entered again.
fn move_own(
    table: &[u32; 90],
    geometry: Geometry,
    separators: &mut [u8],
    numbers: &mut [u32],
    words: &mut [u64],
    owners: &mut [u8],
    pool: &mut [u32],
    waiting: &mut [u64],
    poolowners: &mut [u8],
) -> bool
    requires ready { Ready geometry table.now (held separators.old numbers.old words.old owners.old) }
    requires pooled { Pooled geometry.parameters pool.old waiting.old poolowners.old }
    requires movable { Movable true geometry.parameters geometry.growth }
    requires pages_value { first_unsound_lem geometry.parameters geometry.growth (held separators.old numbers.old words.old owners.old) 0 geometry.parameters.pages ≡ geometry.parameters.pages }
    requires pool_value { pool.old ≡ homes_of geometry.parameters geometry.growth numbers.old }
    requires simple { Simple geometry separators.old numbers.old }
    ensures { MovesOwn geometry.parameters geometry.growth (before separators numbers words owners) (after separators numbers words owners) result }
{
    let parameters = geometry.parameters;
    let places = parameters.places as usize;
    let page = geometry.highest_address() as usize;
    let own = own_stars::find_own(numbers, words, owners, pool, places, page);
    own_stars::take_own(
        table, geometry, separators, numbers, words, owners, pool, waiting, poolowners, own, page,
    );
    let growth = hashing::shrunk(geometry);
    let earlier = Geometry { parameters, growth };
    let entered = own_stars::enter_own(
        table, earlier, separators, numbers, words, owners, pool, waiting, poolowners, own, 0,
    );
    if entered == places {
        return true;
    }
    grow(
        table, earlier, separators, numbers, words, owners, pool, waiting, poolowners, page,
    );
    own_stars::enter_own(
        table, geometry, separators, numbers, words, owners, pool, waiting, poolowners, own,
        entered,
    );
    false
}

// A shrinking: own stars moved, or all pages planned anew.
fn shrink(
    table: &[u32; 90],
    geometry: Geometry,
    separators: &mut [u8],
    numbers: &mut [u32],
    words: &mut [u64],
    owners: &mut [u8],
    pool: &mut [u32],
    waiting: &mut [u64],
    poolowners: &mut [u8],
    page: usize,
) -> Outcome
    requires ready { Ready geometry table.now (held separators.old numbers.old words.old owners.old) }
    requires pooled { Pooled geometry.parameters pool.old waiting.old poolowners.old }
    requires movable { Movable true geometry.parameters geometry.growth }
    ensures value { result ≡ growth_answer geometry.parameters geometry.growth (before separators numbers words owners) (state_after true geometry.parameters geometry.growth) page }
    ensures owners_value { after separators numbers words owners ≡ growth_file geometry.parameters geometry.growth
        (before separators numbers words owners) (state_after true geometry.parameters geometry.growth) }
{
    let pages = geometry.parameters.pages as usize;
    let bad = reach::survey_pages(
        table, geometry, separators, numbers, words, owners, pool, 0, pages, pages,
    );
    if bad < pages {
        return Outcome::Unsound(bad);
    }
    if !is_simple(geometry, separators, numbers, pool) {
        return replace_all(
            table, geometry, true, separators, numbers, words, owners, pool, waiting, poolowners,
            page,
        );
    }
    if move_own(
        table, geometry, separators, numbers, words, owners, pool, waiting, poolowners,
    ) {
        return Outcome::On(page);
    }
    Outcome::Overflows
}

// The stars of all pages, placed anew under that growth state. The answer is the page given, which comes or goes.
pub fn regrow(
    table: &[u32; 90],
    geometry: Geometry,
    back: bool,
    separators: &mut [u8],
    numbers: &mut [u32],
    words: &mut [u64],
    owners: &mut [u8],
    pool: &mut [u32],
    waiting: &mut [u64],
    poolowners: &mut [u8],
    page: usize,
) -> Outcome
    requires ready { Ready geometry table.now (held separators.old numbers.old words.old owners.old) }
    requires pooled { Pooled geometry.parameters pool.old waiting.old poolowners.old }
    requires movable { Movable back geometry.parameters geometry.growth }
    ensures value { result ≡ growth_answer geometry.parameters geometry.growth (before separators numbers words owners) (state_after back geometry.parameters geometry.growth) page }
    ensures owners_value { after separators numbers words owners ≡ growth_file geometry.parameters geometry.growth
        (before separators numbers words owners) (state_after back geometry.parameters geometry.growth) }
{
    if back {
        return shrink(
            table, geometry, separators, numbers, words, owners, pool, waiting, poolowners, page,
        );
    }
    grow(
        table, geometry, separators, numbers, words, owners, pool, waiting, poolowners, page,
    )
}
