// The homes of all items, 0 for an empty place.
ghost use Rattle.std.specs.Prelude.{◌≡◌, ◌≤◌, length};
ghost use Rattle.placement.specs.Shape.{homes_of};
ghost use Rattle.placement.specs.Ready.{Homing};

use hashing::Geometry;

pub fn find_homes(table: &[u32; 90], geometry: Geometry, numbers: &[u32], homes: &mut [u32])
    requires homing { Homing geometry table.now }
    requires homes_len { (length homes.old ≡ length numbers.now) × (length numbers.now ≤ 32768) }
    ensures { homes.new ≡ homes_of geometry.parameters geometry.growth numbers.now }
{
    soundness::find_homes(table, geometry, numbers, 0, numbers.len(), homes, 0);
}
