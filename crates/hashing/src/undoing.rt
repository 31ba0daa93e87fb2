// Giving a page back: the growth state before the latest growth.
ghost use Rattle.std.specs.Prelude.{◌≡◌, true, false};
ghost use Rattle.hashing.specs.Geometry.{is_ungrown};
ghost use Rattle.hashing.specs.Geometry.{shrunk as Geometry·shrunk};
ghost use Rattle.hashing.specs.Limits.{valid_parameters, valid_growth};

use crate::groups::count_at;
use crate::{Geometry, Growth};

// Whether the growth state is that of a new file.
pub fn ungrown(growth: Growth) -> bool
    ensures { result ≡ is_ungrown growth }
{
    if growth.expansions != 0 {
        return false;
    }
    growth.expanded == 0
}

// The growth state before the latest growth.
pub fn shrunk(geometry: Geometry) -> Growth
    requires parameters_value { valid_parameters geometry.parameters ≡ true }
    requires growth_value { valid_growth geometry.parameters geometry.growth ≡ true }
    requires growth_value_2 { is_ungrown geometry.growth ≡ false }
    ensures { result ≡ Geometry·shrunk geometry.parameters geometry.growth }
{
    let expansions = geometry.growth.expansions;
    let expanded = geometry.growth.expanded;
    if expanded != 0 {
        return Growth {
            expansions,
            expanded: expanded - 1,
        };
    }
    let earlier = expansions - 1;
    let last = count_at(geometry.parameters, earlier) - 1;
    Growth {
        expansions: earlier,
        expanded: last,
    }
}
