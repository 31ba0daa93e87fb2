// The homes of a page's numbers: the keys and the pages that they start from, then the steps.
ghost use Rattle.std.specs.Prelude.{◌≡◌, true, map, ◌*◌, ◌%◌, ◌≤◌, ◌<◌, length, get_or, take};
ghost use Rattle.generator.specs.Generator.{modulus};
ghost use Rattle.generator.specs.Shape.{first_multipliers_lem};
ghost use Rattle.hashing.specs.Geometry.{multiplier_of};
ghost use Rattle.hashing.specs.Limits.{valid_parameters, valid_growth};
ghost use Rattle.hashing.specs.Home.{home};
ghost use Rattle.homes.specs.Lanes.{block_at, Blocks, keys_at, KeysOf};
ghost use Rattle.homes.specs.Indexed.{lanes};

use crate::lanes::{keys_of, starts};
use crate::passes::steps;
use hashing::Geometry;

fn prepare(
    factor: u32,
    span: u16,
    numbers: &[u32; 32],
    places: usize,
    keys: &mut [u64; 32],
    pages: &mut [u16; 32],
)
    requires factor_lt_modulus { factor < modulus }
    requires le_span { (1 ≤ span) × (span ≤ 1024) }
    requires places_bound { places ≤ 32 }
    requires keys_len { (length keys.old ≡ 32) × (length pages.old ≡ 32) }
    ensures pages_len { length pages.new ≡ 32 }
    ensures blocks { Blocks places (λ at. KeysOf numbers.now at (block_at keys.new at)) }
    ensures blocks_2 { Blocks places (λ at. block_at pages.new at ≡ lanes 8 (λ i. factor * get_or (keys_at numbers.now at) i 0 % modulus % span)) }
{
    let inverse = 4294967295 / span as u32;
    for at in (0..places).step_by(8) {
        let mut block = [0u64; 8];
        let mut starting = [0u16; 8];
        keys_of(numbers, at, &mut block);
        starts(factor, span, inverse, &block, &mut starting);
        buffers::copy(keys, at, &block, 0, 8);
        buffers::copy(pages, at, &starting, 0, 8);
    }
}

// What stands in `pages` behind the places is of no meaning.
pub fn of_page(
    powers: &[u32; 90],
    geometry: Geometry,
    numbers: &[u32; 32],
    places: usize,
    pages: &mut [u16; 32],
)
    requires powers_value { powers.now ≡ first_multipliers_lem (multiplier_of geometry.parameters) }
    requires parameters_value { valid_parameters geometry.parameters ≡ true }
    requires growth_value { valid_growth geometry.parameters geometry.growth ≡ true }
    requires places_bound { places ≤ 32 }
    requires numbers_len { (length numbers.now ≡ 32) × (length pages.old ≡ 32) }
    ensures { take places pages.new ≡ map (home (multiplier_of geometry.parameters) geometry.parameters geometry.growth) (take places numbers.now) }
{
    let mut keys = [0u64; 32];
    let span = (geometry.parameters.width * geometry.parameters.groups) as u16;
    prepare(powers[0], span, numbers, places, &mut keys, pages);
    steps(powers, geometry, places, &keys, pages);
}
