// Which stars' home becomes the new page.
ghost use Rattle.std.specs.Prelude.{◌≡◌};
ghost use Rattle.hashing.specs.Geometry.{page_count};
ghost use Rattle.placement.specs.Shape.{home_in};
ghost use Rattle.placement.specs.Ready.{Homing};
ghost use Rattle.growth_in_place.specs.Expansion.{joins_at};

use hashing::Geometry;

// Of a place's number and its home under this growth state, for the new page `added`.
pub fn joins(table: &[u32; 90], geometry: Geometry, number: u32, home: u32, added: u32) -> bool
    requires homing { Homing geometry table.now }
    requires home_value { home ≡ home_in geometry.parameters geometry.growth number }
    requires added_value { added ≡ page_count geometry.parameters geometry.growth }
    ensures { result ≡ joins_at geometry.parameters geometry.growth number }
{
    if number == 0 {
        return false;
    }
    home_update::home_grown(table, geometry, number, home) == added
}
