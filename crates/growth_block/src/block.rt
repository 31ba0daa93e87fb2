// The plan of a page's block. A block ends at a page whose stored separator is 2^k − 1: the stars that stand above it are homed above it.
ghost use Rattle.std.specs.Prelude.{◌≡◌, true, cond, ℕ, ◌+◌, ◌*◌, ◌^◌, ◌≤◌, ◌<◌, ltb, length, drop, get_or};
ghost use Rattle.std.proofs.Math.Seq.{paste};
ghost use Rattle.generator.specs.Generator.{top_of_lem};
ghost use Rattle.hashing.specs.Geometry.{page_count, grown};
ghost use Rattle.pages.specs.Shape.{stretch};
ghost use Rattle.placement.specs.Shape.{homes_of};
ghost use Rattle.placement.specs.Ready.{Homing};
ghost use Rattle.page_separator.specs.Lists.{all_below};
ghost use Rattle.growth_in_place.specs.Expansion.{NoneCounted};
ghost use Rattle.growth_block.specs.Block.{homes_taken, StartsBlock, PlansLocally, IsLocal};

use hashing::Geometry;

// The first page of the block that a page stands in.
fn block_start(separators: &[u8], top: u8, page: usize) -> usize
    requires { page ≤ length separators.now }
    ensures { StartsBlock separators.now top page result }
{
    for below in (0..page).rev() {
        if separators[below] == top {
            return below + 1;
        }
    }
    0
}

// The page behind a block, or its last one if that is the last of all.
fn page_behind(last: usize, pages: usize) -> usize
    requires { last < pages }
    ensures { result ≡ cond (ltb (last + 1) pages) (last + 1) last }
{
    let next = last + 1;
    if next < pages {
        return next;
    }
    last
}

// The homes of `count` items under the next growth state, up to page `stop`.
fn rehome_items(
    table: &[u32; 90],
    geometry: Geometry,
    numbers: &[u32],
    homes: &mut [u32],
    first: usize,
    count: usize,
    stop: u32,
)
    requires homing { Homing geometry table.now }
    requires count_in_bounds { first + count ≤ length numbers.now }
    requires homes_value { homes.old ≡ homes_of geometry.parameters geometry.growth numbers.now }
    ensures { homes.new ≡ paste homes.old first
        (drop first (homes_taken geometry.parameters (grown geometry.parameters geometry.growth) stop numbers.now)) count }
{
    for i in first..first + count {
        let next = home_update::item_grown(table, geometry, numbers[i], homes[i]);
        homes[i] = next.min(stop);
    }
}

// Whether page `step` can be planned so: the new page has room, and is another one; the last page has none behind it. The pool holds the items' homes.
pub fn is_local(
    table: &[u32; 90],
    geometry: Geometry,
    separators: &[u8],
    numbers: &[u32],
    homes: &[u32],
    step: usize,
) -> bool
    requires homing { Homing geometry table.now }
    requires growth_bound { page_count geometry.parameters geometry.growth < geometry.parameters.pages }
    requires step_lt_pages { step < geometry.parameters.pages }
    requires separators_len { length separators.now ≡ geometry.parameters.pages }
    requires numbers_len { length numbers.now ≡ geometry.parameters.pages * geometry.parameters.places }
    requires homes_value { homes.now ≡ homes_of geometry.parameters geometry.growth numbers.now }
    requires none_counted { get_or separators.now (page_count geometry.parameters geometry.growth) 0 ≡ top_of_lem geometry.parameters.bits
        → NoneCounted geometry.parameters geometry.growth separators.now numbers.now }
    ensures { result ≡ true → IsLocal geometry.parameters geometry.growth separators.now numbers.now step }
{
    if step + 1 == geometry.parameters.pages as usize {
        return false;
    }
    if step == geometry.highest_address() as usize + 1 {
        return false;
    }
    growth_in_place::is_spacious(table, geometry, separators, numbers, homes)
}

// Plans page `step`, which is not the last one, of the growth of sound pages; the pool holds the homes of all items, and the page's sources afterwards.
pub fn plan_block(
    table: &[u32; 90],
    geometry: Geometry,
    separators: &[u8],
    numbers: &[u32],
    pool: &mut [u32],
    waiting: &mut [u64],
    planned: &mut [u8],
    step: usize,
)
    requires homing { Homing geometry table.now }
    requires step_bound { (step + 1 < geometry.parameters.pages) × (length separators.now ≡ geometry.parameters.pages) }
    requires numbers_len { (length numbers.now ≡ geometry.parameters.pages * geometry.parameters.places) × (length waiting.old ≡ geometry.parameters.pages * geometry.parameters.places) }
    requires pages_in_bounds { geometry.parameters.pages ≤ length planned.old }
    requires by_index { (lo n : ℕ) → lo + n ≤ geometry.parameters.pages → all_below (2 ^ 31) (stretch geometry.parameters.places lo n numbers.now) ≡ true }
    requires pool_value { pool.old ≡ homes_of geometry.parameters geometry.growth numbers.now }
    ensures { PlansLocally geometry.parameters geometry.growth step separators.now numbers.now pool.old pool.new
        planned.old planned.new }
{
    let parameters = geometry.parameters;
    let places = parameters.places as usize;
    let top = placement::top_of(parameters);
    let lo = block_start(separators, top, step);
    let last = reach::stretch_end(separators, top, step);
    let stop = page_behind(last, parameters.pages as usize);
    let count = stop - lo + 1;
    rehome_items(
        table,
        geometry,
        numbers,
        pool,
        lo * places,
        count * places,
        stop as u32,
    );
    page_plan::plan(parameters, numbers, pool, waiting, planned, lo, count, 0, 0);
}
