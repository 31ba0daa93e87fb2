// Which pages may hold a star that is to be moved: those of the expanded group, and those to which their stars may have passed.
ghost use Rattle.std.specs.Prelude.{◌≡◌, true, not, ◌&&◌, ◌||◌, ◌<◌, eqb};
ghost use Rattle.generator.specs.Generator.{top_of_lem};
ghost use Rattle.hashing.specs.Geometry.{expands};
ghost use Rattle.hashing.specs.Limits.{valid_parameters, valid_growth};

use hashing::{Geometry, Parameters};

// A page that stars may pass on to, or one of the expanded group.
pub fn near(geometry: Geometry, runs: bool, page: usize) -> bool
    requires parameters_value { valid_parameters geometry.parameters ≡ true }
    requires growth_value { valid_growth geometry.parameters geometry.growth ≡ true }
    requires page_bound { page < 1024 }
    ensures { result ≡ (runs || expands geometry.parameters geometry.growth page) }
{
    runs || hashing::expands(geometry, page as u32)
}

// Stars pass on from such a page, unless its separator is 2^k − 1.
pub fn runs_on(parameters: Parameters, here: bool, separator: u8) -> bool
    requires { valid_parameters parameters ≡ true }
    ensures { result ≡ (here && not (eqb separator (top_of_lem parameters.bits))) }
{
    here && separator != placement::top_of(parameters)
}
