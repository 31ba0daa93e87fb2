// The home page of a star. Group numbers, ranks, page numbers, G and typeof.n.G are of 16 bits here.
ghost use Rattle.std.specs.Prelude.{◌≡◌, true, ◌*◌, ◌/◌, ◌%◌, ◌<◌, ◌≤◌};
ghost use Rattle.generator.specs.Generator.{modulus, scrambled};
ghost use Rattle.generator.specs.Shape.{first_multipliers_lem};
ghost use Rattle.hashing.specs.Geometry.{multiplier_of};
ghost use Rattle.hashing.specs.Limits.{valid_parameters, valid_growth};
ghost use Rattle.hashing.specs.Home.{step_from, chosen as Home·chosen, home as Home·home};
ghost use Rattle.hashing.specs.Moves.{code_at, code_page, inverse_of_lem, Landed};

use crate::moves::{Landing, choose, chosen, follow, moved, page_of};
use crate::{Geometry, Parameters};
use generator::residue;

pub fn home(table: &[u32; 90], geometry: Geometry, number: u32) -> u32
    requires table_value { table.now ≡ first_multipliers_lem (multiplier_of geometry.parameters) }
    requires parameters_value { valid_parameters geometry.parameters ≡ true }
    requires growth_value { valid_growth geometry.parameters geometry.growth ≡ true }
    ensures { result ≡ Home·home (multiplier_of geometry.parameters) geometry.parameters geometry.growth number }
{
    let parameters = geometry.parameters;
    let key = number % 2147483647;
    let mut steps = [0u16; 32];
    let choice = choose(
        table,
        parameters,
        geometry.growth.expansions,
        key,
        &mut steps,
    );
    let inverse = inverse_of(parameters);
    let start = first_page(table, parameters, key);
    let landing = follow(parameters, inverse, &steps, choice.count, start);
    last_step(table, geometry, inverse, key, choice.last, landing) as u32
}

pub fn inverse_of(parameters: Parameters) -> u32
    requires { valid_parameters parameters ≡ true }
    ensures { result ≡ inverse_of_lem parameters.step }
{
    524288 / parameters.step + 1
}

// The home in a new file.
fn first_page(table: &[u32; 90], parameters: Parameters, key: u32) -> u16
    requires table_value { table.now ≡ first_multipliers_lem (multiplier_of parameters) }
    requires parameters_value { valid_parameters parameters ≡ true }
    requires key_lt_modulus { key < modulus }
    ensures { result ≡ scrambled (multiplier_of parameters) 1 key % (parameters.width * parameters.groups) }
{
    (residue(table[0], key) % (parameters.width * parameters.groups)) as u16
}

// Whether the last step, of that code, chooses the number.
pub fn chosen_last(table: &[u32; 90], geometry: Geometry, key: u32, last: u16) -> bool
    requires table_value { table.now ≡ first_multipliers_lem (multiplier_of geometry.parameters) }
    requires parameters_value { valid_parameters geometry.parameters ≡ true }
    requires growth_value { valid_growth geometry.parameters geometry.growth ≡ true }
    requires key_lt_modulus { key < modulus }
    requires last_value { last ≡ code_at geometry.parameters geometry.growth.expansions }
    ensures { result ≡ Home·chosen (multiplier_of geometry.parameters) geometry.parameters key geometry.growth.expansions }
{
    let i = geometry.growth.expansions as usize;
    chosen(table[2 * i + 1], key, last % 8)
}

// The last step, in the present partial expansion, which has reached the groups of a rank below x.
fn last_step(
    table: &[u32; 90],
    geometry: Geometry,
    inverse: u32,
    key: u32,
    last: u16,
    landing: Landing,
) -> u16
    requires table_value { table.now ≡ first_multipliers_lem (multiplier_of geometry.parameters) }
    requires parameters_value { valid_parameters geometry.parameters ≡ true }
    requires growth_value { valid_growth geometry.parameters geometry.growth ≡ true }
    requires inverse_value { inverse ≡ inverse_of_lem geometry.parameters.step }
    requires key_lt_modulus { key < modulus }
    requires last_value { last ≡ code_at geometry.parameters geometry.growth.expansions }
    requires landed { Landed geometry.parameters landing.code landing.order }
    requires code_bound { landing.code / 8 ≤ last / 8 }
    ensures { result ≡ step_from (multiplier_of geometry.parameters) geometry.parameters geometry.growth key geometry.growth.expansions
        (code_page geometry.parameters landing.code landing.order) }
{
    let parameters = geometry.parameters;
    let page = page_of(parameters, landing.code, landing.order);
    if !chosen_last(table, geometry, key, last) {
        return page;
    }
    let order = moved(parameters, inverse, landing.code, landing.order, last);
    if geometry.growth.expanded <= order as u32 {
        return page;
    }
    page_of(parameters, last, order)
}
