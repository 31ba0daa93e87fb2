// The homes of the stars of a part of the items, 32 stars at a time, whichever pages they stand on.
ghost use Rattle.std.specs.Prelude.{◌≡◌, ◌+◌, ◌≤◌, length, take, drop};
ghost use Rattle.std.proofs.Math.Seq.{paste};
ghost use Rattle.placement.specs.Shape.{homes_of};
ghost use Rattle.placement.specs.Ready.{Homing};
ghost use Rattle.soundness.specs.Stars.{spread_from, Gathered};

use hashing::Geometry;

// How many stars were taken, and how many items were looked at.
#[derive(Clone, Copy)]
pub struct Taken {
    pub stars: usize,
    pub items: usize,
}

// Takes the numbers of the stars of `items` items from `first` on, at most 32. Each item is written, and counted if it is a star:
// no branch depends on it.
fn gather(numbers: &[u32], first: usize, items: usize, block: &mut [u32; 32]) -> Taken
    requires le { (1 ≤ items) × (first + items ≤ length numbers.now) }
    requires block_len { length block.old ≡ 32 }
    ensures { Gathered (drop first numbers.now) items block.new result }
{
    let mut stars: usize = 0;
    for i in 0..items {
        if stars == 32 {
            return Taken { stars, items: i };
        }
        let number = numbers[first + i];
        block[stars] = number;
        stars += usize::from(number != 0);
    }
    Taken { stars, items }
}

// Puts the homes found for the stars of `items` items at these items, 0 at empty places. What is read behind the last star is of
// no meaning.
fn spread(
    numbers: &[u32],
    first: usize,
    items: usize,
    found: &[u16; 32],
    homes: &mut [u32],
    to: usize,
)
    requires { (first + items ≤ length numbers.now) × (to + items ≤ length homes.old) }
    ensures { homes.new
        ≡ paste homes.old to (spread_from found.now 0 (take items (drop first numbers.now))) items }
{
    let mut taken: usize = 0;
    for i in 0..items {
        let star = usize::from(numbers[first + i] != 0);
        homes[to + i] = u32::from(found[taken % 32]) * star as u32;
        taken += star;
    }
}

// The homes of up to 32 stars and the empty places between them, of `items` items from `first` on; answers how many items these are.
fn find_block(
    table: &[u32; 90],
    geometry: Geometry,
    numbers: &[u32],
    first: usize,
    items: usize,
    homes: &mut [u32],
    to: usize,
) -> usize
    requires homing { Homing geometry table.now }
    requires le { (1 ≤ items) × ((first + items ≤ length numbers.now) × (to + items ≤ length homes.old)) }
    ensures lower_bound { (1 ≤ result) × (result ≤ items) }
    ensures homes_after { homes.new
        ≡ paste homes.old to (homes_of geometry.parameters geometry.growth (drop first numbers.now)) result }
{
    let mut block = [0u32; 32];
    let mut found = [0u16; 32];
    let taken = gather(numbers, first, items, &mut block);
    homes::of_page(table, geometry, &block, taken.stars, &mut found);
    let length = taken.items;
    spread(numbers, first, length, &found, homes, to);
    length
}

// The homes of `items` items from `first` on stand in `homes` from `to` on: 0 for an empty place.
pub fn find_homes(
    table: &[u32; 90],
    geometry: Geometry,
    numbers: &[u32],
    first: usize,
    items: usize,
    homes: &mut [u32],
    to: usize,
)
    requires homing { Homing geometry table.now }
    requires in_bounds { (first + items ≤ length numbers.now) × (to + items ≤ length homes.old) }
    ensures { homes.new
        ≡ paste homes.old to (homes_of geometry.parameters geometry.growth (drop first numbers.now)) items }
{
    let mut i = 0;
    while i < items {
        i += find_block(
            table,
            geometry,
            numbers,
            first + i,
            items - i,
            homes,
            to + i,
        );
    }
}
