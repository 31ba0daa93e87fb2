// All pages of the new file planned from the stars of the old one.
ghost use Rattle.std.specs.Prelude.{◌≡◌, true, ◌*◌, ◌≤◌, ◌<◌, ◌^◌, length};
ghost use Rattle.hashing.specs.Limits.{valid_parameters, valid_growth};
ghost use Rattle.placement.specs.Ready.{Homing};
ghost use Rattle.page_separator.specs.Lists.{all_below};
ghost use Rattle.page_plan.specs.Gather.{stars_in};
ghost use Rattle.carrying.specs.Carried.{carried_words, AllPlanned};

use crate::keys::{key_stars, shift_for};
use hashing::Geometry;
use page_plan::{gather_stars, place_all};

// The answer is whether all stars find a place.
fn plan_stars(
    table: &[u32; 90],
    geometry: Geometry,
    numbers: &[u32],
    pool: &mut [u32],
    waiting: &mut [u64],
    planned: &mut [u8; 1024],
    shift: u32,
) -> bool
    requires homing { Homing geometry table.now }
    requires shift_bound { shift < 32 }
    requires numbers_len_bound { (length numbers.now ≤ 32768) × (all_below (2 ^ 31) numbers.now ≡ true) }
    requires pool_len { length pool.old ≡ geometry.parameters.pages * geometry.parameters.places }
    requires waiting_len { length waiting.old ≡ geometry.parameters.pages * geometry.parameters.places }
    requires planned_len { length planned.old ≡ 1024 }
    requires numbers_in_bounds { stars_in 0 numbers.now ≤ length pool.old }
    ensures { AllPlanned geometry.parameters (carried_words geometry numbers.now) pool.new planned.new result }
{
    let parameters = geometry.parameters;
    let pages = parameters.pages as usize;
    let mut ends = [0u32; 1024];
    let stars = key_stars(table, geometry, numbers, pool, waiting, shift);
    gather_stars(numbers, pool, waiting, &mut ends, stars, pages);
    place_all(parameters, pool, waiting, planned, &ends, stars)
}

// Whether all stars find a place. More stars than places need no plan.
pub fn plan_all(
    geometry: Geometry,
    numbers: &[u32],
    pool: &mut [u32],
    waiting: &mut [u64],
    planned: &mut [u8; 1024],
) -> bool
    requires parameters_value { (valid_parameters geometry.parameters ≡ true) × (valid_growth geometry.parameters geometry.growth ≡ true) }
    requires numbers_len_bound { (length numbers.now ≤ 32768) × (all_below (2 ^ 31) numbers.now ≡ true) }
    requires pool_len { length pool.old ≡ geometry.parameters.pages * geometry.parameters.places }
    requires waiting_len { length waiting.old ≡ geometry.parameters.pages * geometry.parameters.places }
    requires planned_len { length planned.old ≡ 1024 }
    ensures { AllPlanned geometry.parameters (carried_words geometry numbers.now) pool.new planned.new result }
{
    if pool.len() < page_plan::count_stars(numbers, 0, numbers.len(), 0) {
        return false;
    }
    let table = generator::first_multipliers(geometry.parameters.multiplier);
    let shift = shift_for(numbers);
    plan_stars(&table, geometry, numbers, pool, waiting, planned, shift)
}
