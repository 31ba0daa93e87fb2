// The home under the growth state before, from the home under this one.
ghost use Rattle.std.specs.Prelude.{◌≡◌, true, false};
ghost use Rattle.generator.specs.Shape.{first_multipliers_lem};
ghost use Rattle.hashing.specs.Geometry.{multiplier_of, is_ungrown, shrunk as Geometry·shrunk};
ghost use Rattle.hashing.specs.Limits.{valid_parameters, valid_growth};
ghost use Rattle.hashing.specs.Home.{home as Home·home};

use hashing::{Geometry, home, shrunk};

// Only the page given back loses its stars.
pub fn home_shrunk(table: &[u32; 90], geometry: Geometry, number: u32, old: u32) -> u32
    requires table_value { table.now ≡ first_multipliers_lem (multiplier_of geometry.parameters) }
    requires parameters_value { valid_parameters geometry.parameters ≡ true }
    requires growth_value { valid_growth geometry.parameters geometry.growth ≡ true }
    requires growth_value_2 { is_ungrown geometry.growth ≡ false }
    requires value { old ≡ Home·home (multiplier_of geometry.parameters) geometry.parameters geometry.growth number }
    ensures { result ≡ Home·home (multiplier_of geometry.parameters) geometry.parameters (Geometry·shrunk geometry.parameters geometry.growth) number }
{
    if old != geometry.highest_address() {
        return old;
    }
    let parameters = geometry.parameters;
    let growth = shrunk(geometry);
    home(table, Geometry { parameters, growth }, number)
}
