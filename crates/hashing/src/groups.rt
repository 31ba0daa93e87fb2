// Group size, group count, highest address, and the growth step.
ghost use Rattle.std.specs.Prelude.{◌≡◌, true, ◌/◌, ◌<◌, ◌≤◌};
ghost use Rattle.hashing.specs.Geometry.{size_at, count_at_lem, group_size_lem, group_count_lem, page_count, highest};
ghost use Rattle.hashing.specs.Geometry.{grown as Geometry·grown, expands as Geometry·expands};
ghost use Rattle.hashing.specs.Limits.{valid_parameters, valid_growth};

use crate::ranks::rank;
use crate::{Geometry, Growth, Parameters};

impl Geometry {
    pub fn group_size(self) -> u32
        requires parameters_value { valid_parameters self.parameters ≡ true }
        requires growth_value { valid_growth self.parameters self.growth ≡ true }
        ensures { result ≡ group_size_lem self.parameters self.growth }
    {
        size_at(self.parameters, self.growth.expansions)
    }

    pub fn group_count(self) -> u32
        requires parameters_value { valid_parameters self.parameters ≡ true }
        requires growth_value { valid_growth self.parameters self.growth ≡ true }
        ensures { result ≡ group_count_lem self.parameters self.growth }
    {
        count_at(self.parameters, self.growth.expansions)
    }

    pub fn highest_address(self) -> u32
        requires parameters_value { valid_parameters self.parameters ≡ true }
        requires growth_value { valid_growth self.parameters self.growth ≡ true }
        ensures { result ≡ highest self.parameters self.growth }
    {
        self.group_size() * self.group_count() + self.growth.expanded - 1
    }
}

// The pages of a group after some partial expansions.
pub fn size_at(parameters: Parameters, expansions: u32) -> u32
    requires { valid_parameters parameters ≡ true }
    ensures { result ≡ size_at parameters expansions }
{
    parameters.width + expansions % parameters.width
}

// The groups after some partial expansions, of which few enough double.
pub fn count_at(parameters: Parameters, expansions: u32) -> u32
    requires parameters_value { valid_parameters parameters ≡ true }
    requires width_bound { expansions / parameters.width ≤ 10 }
    ensures { result ≡ count_at_lem parameters expansions }
{
    parameters.groups << (expansions / parameters.width)
}

// The growth state after one more page.
pub fn grown(geometry: Geometry) -> Growth
    requires parameters_value { valid_parameters geometry.parameters ≡ true }
    requires growth_value { valid_growth geometry.parameters geometry.growth ≡ true }
    requires growth_bound { page_count geometry.parameters geometry.growth < geometry.parameters.pages }
    ensures { result ≡ Geometry·grown geometry.parameters geometry.growth }
{
    let count = geometry.group_count();
    let next = geometry.growth.expanded + 1;
    if next == count {
        return Growth {
            expansions: geometry.growth.expansions + 1,
            expanded: 0,
        };
    }
    Growth {
        expansions: geometry.growth.expansions,
        expanded: next,
    }
}

// Whether it is a page of the group that the next growth expands.
pub fn expands(geometry: Geometry, page: u32) -> bool
    requires parameters_value { valid_parameters geometry.parameters ≡ true }
    requires growth_value { valid_growth geometry.parameters geometry.growth ≡ true }
    ensures { result ≡ Geometry·expands geometry.parameters geometry.growth page }
{
    let count = geometry.group_count();
    if geometry.group_size() * count <= page {
        return false;
    }
    let step = geometry.parameters.step as u16;
    let group = (page % count) as u16;
    rank(step, count as u16, group) as u32 == geometry.growth.expanded
}
