// The home of a place's item under the next growth state and the one before; 0 for an empty place.
ghost use Rattle.std.specs.Prelude.{◌≡◌, false};
ghost use Rattle.hashing.specs.Geometry.{grown, is_ungrown, shrunk};
ghost use Rattle.placement.specs.Shape.{home_in};
ghost use Rattle.placement.specs.Ready.{Homing};

use crate::growing::home_grown;
use crate::shrinking::home_shrunk;
use hashing::Geometry;

pub fn item_grown(table: &[u32; 90], geometry: Geometry, number: u32, old: u32) -> u32
    requires homing { Homing geometry table.now }
    requires value { old ≡ home_in geometry.parameters geometry.growth number }
    ensures { result ≡ home_in geometry.parameters (grown geometry.parameters geometry.growth) number }
{
    if number == 0 {
        return 0;
    }
    home_grown(table, geometry, number, old)
}

pub fn item_shrunk(table: &[u32; 90], geometry: Geometry, number: u32, old: u32) -> u32
    requires homing { Homing geometry table.now }
    requires growth_value { is_ungrown geometry.growth ≡ false }
    requires value { old ≡ home_in geometry.parameters geometry.growth number }
    ensures { result ≡ home_in geometry.parameters (shrunk geometry.parameters geometry.growth) number }
{
    if number == 0 {
        return 0;
    }
    home_shrunk(table, geometry, number, old)
}
