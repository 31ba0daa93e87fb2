// All pages planned under the next growth state, or `back` under the one before.
ghost use Rattle.std.specs.Prelude.{◌≡◌, true, ◌*◌, ◌^◌, ◌≤◌, length};
ghost use Rattle.pages.specs.Shape.{stretch};
ghost use Rattle.hashing.specs.Limits.{valid_parameters, valid_growth};
ghost use Rattle.placement.specs.Shape.{home_in, homes_of};
ghost use Rattle.placement.specs.Ready.{Homing};
ghost use Rattle.page_separator.specs.Lists.{all_below};
ghost use Rattle.growth_plan.specs.Growth.{state_after, Movable, first_moved_lem, HomesStay, PlansAll};

use hashing::Geometry;

// An item's home under that growth state, from its home under this one; 0 for an empty place.
// Stays: the contract's `Movable` and `state_after` of specs/ take the flag.
fn next_home(table: &[u32; 90], geometry: Geometry, back: bool, number: u32, old: u32) -> u32
    requires homing { Homing geometry table.now }
    requires movable { Movable back geometry.parameters geometry.growth }
    requires value { old ≡ home_in geometry.parameters geometry.growth number }
    ensures { result ≡ home_in geometry.parameters (state_after back geometry.parameters geometry.growth) number }
{
    if back {
        return home_update::item_shrunk(table, geometry, number, old);
    }
    home_update::item_grown(table, geometry, number, old)
}

// The first item whose home may be another one: a shrinking moves only stars homed at the page given back, which stand there or above.
fn first_moved(geometry: Geometry, back: bool) -> usize
    requires parameters_value { valid_parameters geometry.parameters ≡ true }
    requires growth_value { valid_growth geometry.parameters geometry.growth ≡ true }
    ensures { result ≡ first_moved_lem back geometry.parameters geometry.growth }
{
    if back {
        return geometry.highest_address() as usize * geometry.parameters.places as usize;
    }
    0
}

// The homes of all items under that growth state, from those under this one.
fn rehome(table: &[u32; 90], geometry: Geometry, back: bool, numbers: &[u32], homes: &mut [u32])
    requires homing { Homing geometry table.now }
    requires movable { Movable back geometry.parameters geometry.growth }
    requires homes_value { homes.old ≡ homes_of geometry.parameters geometry.growth numbers.now }
    requires homes_stay { HomesStay back geometry.parameters geometry.growth numbers.now }
    ensures { homes.new ≡ homes_of geometry.parameters (state_after back geometry.parameters geometry.growth) numbers.now }
{
    let first = first_moved(geometry, back);
    for i in first..numbers.len() {
        let old = homes[i];
        homes[i] = next_home(table, geometry, back, numbers[i], old);
    }
}

// The stars of all pages, which are sound, planned under that growth state; the pool holds the homes of the items under this one, and sources
// afterwards. The answer is whether all stars find a place.
pub fn plan_all(
    table: &[u32; 90],
    geometry: Geometry,
    back: bool,
    numbers: &[u32],
    pool: &mut [u32],
    waiting: &mut [u64],
    planned: &mut [u8],
) -> bool
    requires homing { Homing geometry table.now }
    requires movable { Movable back geometry.parameters geometry.growth }
    requires numbers_len { (length numbers.now ≡ geometry.parameters.pages * geometry.parameters.places) × (length waiting.old ≡ geometry.parameters.pages * geometry.parameters.places) }
    requires pages_in_bounds { geometry.parameters.pages ≤ length planned.old }
    requires numbers_value { all_below (2 ^ 31) (stretch geometry.parameters.places 0 geometry.parameters.pages numbers.now) ≡ true }
    requires pool_value { pool.old ≡ homes_of geometry.parameters geometry.growth numbers.now }
    requires homes_stay { HomesStay back geometry.parameters geometry.growth numbers.now }
    ensures { PlansAll geometry.parameters (state_after back geometry.parameters geometry.growth) numbers.now pool waiting planned result }
{
    let parameters = geometry.parameters;
    let places = parameters.places as usize;
    let pages = parameters.pages as usize;
    rehome(table, geometry, back, numbers, pool);
    let mut ends = [0u32; 1024];
    let end = page_plan::gather(numbers, pool, waiting, &mut ends, places, 0, pages, 0, 0);
    page_plan::place_all(parameters, pool, waiting, planned, &ends, end)
}
