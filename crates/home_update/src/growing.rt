// The home under the next growth state, from the home under this one.
ghost use Rattle.std.specs.Prelude.{◌≡◌, true};
ghost use Rattle.generator.specs.Shape.{first_multipliers_lem};
ghost use Rattle.hashing.specs.Geometry.{multiplier_of, grown};
ghost use Rattle.hashing.specs.Limits.{valid_parameters, valid_growth};
ghost use Rattle.hashing.specs.Home.{rank_at, home as Home·home};
ghost use Rattle.hashing.specs.Moves.{code_at};

use hashing::{Geometry, chosen_last, count_of, inverse_of, page_of, ranked};

// The code of the last step.
fn last_code(geometry: Geometry) -> u16
    requires parameters_value { valid_parameters geometry.parameters ≡ true }
    requires growth_value { valid_growth geometry.parameters geometry.growth ≡ true }
    ensures { result ≡ code_at geometry.parameters geometry.growth.expansions }
{
    let expansions = geometry.growth.expansions;
    let width = geometry.parameters.width;
    (expansions / width * 8 + (width + expansions % width)) as u16
}

// The rank of a page's group in the last step.
fn last_rank(geometry: Geometry, last: u16, page: u16) -> u16
    requires parameters_value { valid_parameters geometry.parameters ≡ true }
    requires growth_value { valid_growth geometry.parameters geometry.growth ≡ true }
    requires last_value { last ≡ code_at geometry.parameters geometry.growth.expansions }
    ensures { result ≡ rank_at geometry.parameters geometry.growth.expansions page }
{
    let parameters = geometry.parameters;
    let group = page % count_of(parameters, last);
    let order = ranked(parameters, inverse_of(parameters), last, group);
    order
}

pub fn home_grown(table: &[u32; 90], geometry: Geometry, number: u32, old: u32) -> u32
    requires table_value { table.now ≡ first_multipliers_lem (multiplier_of geometry.parameters) }
    requires parameters_value { valid_parameters geometry.parameters ≡ true }
    requires growth_value { valid_growth geometry.parameters geometry.growth ≡ true }
    requires value { old ≡ Home·home (multiplier_of geometry.parameters) geometry.parameters geometry.growth number }
    ensures { result ≡ Home·home (multiplier_of geometry.parameters) geometry.parameters (grown geometry.parameters geometry.growth) number }
{
    let last = last_code(geometry);
    let page = old as u16;
    let expanded = geometry.growth.expanded as u16;
    let first = page_of(geometry.parameters, last, 0);
    if first <= page {
        return old;
    }
    if !chosen_last(table, geometry, number % 2147483647, last) {
        return old;
    }
    if last_rank(geometry, last, page) == expanded {
        return (first + expanded) as u32;
    }
    old
}
