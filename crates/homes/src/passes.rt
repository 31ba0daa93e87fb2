// The steps of a page, each over as many blocks of eight as its places need.
ghost use Rattle.std.specs.Prelude.{◌≡◌, true, ◌+◌, ◌≤◌, length};
ghost use Rattle.std.proofs.Math.Seq.{paste};
ghost use Rattle.generator.specs.Shape.{first_multipliers_lem};
ghost use Rattle.hashing.specs.Geometry.{multiplier_of, count_at_lem};
ghost use Rattle.hashing.specs.Limits.{valid_parameters, valid_growth};
ghost use Rattle.homes.specs.Stages.{stage_at, sweep_of, test_at};
ghost use Rattle.homes.specs.Lanes.{block_at, Blocks, Keys, pages_after_lem, groups_after_lem, PagedAt, GroupedAt, RegroupedAt};

use crate::blocks::turn;
use crate::stages::{Stage, Sweep, Test, first_stage, next_stage, sweep_by, test_of};
use hashing::Geometry;

// Step i + 1 of the block at `at`. Its items are copied, so that they stay in registers.
fn turn_at(
    geometry: Geometry,
    sweep: Sweep,
    stage: Stage,
    test: Test,
    i: u32,
    at: usize,
    keys: &[u64; 32],
    groups: &mut [u16; 32],
    pages: &mut [u16; 32],
)
    requires parameters_value { valid_parameters geometry.parameters ≡ true }
    requires growth_value { valid_growth geometry.parameters geometry.growth ≡ true }
    requires i_le_expansions { i ≤ geometry.growth.expansions }
    requires sweep_value { (sweep ≡ sweep_of geometry.parameters.step) × (stage ≡ stage_at geometry.parameters i) }
    requires test_value { test ≡ test_at geometry.parameters geometry.growth i }
    requires at_bound { at + 8 ≤ 32 }
    requires groups_len { (length groups.old ≡ 32) × (length pages.old ≡ 32) }
    requires keys { Keys (block_at keys.now at) }
    requires grouped_at { GroupedAt geometry keys.now i groups.old at }
    requires paged_at { PagedAt geometry keys.now i pages.old at }
    ensures groups_after { groups.new ≡ paste groups.old at
        (groups_after_lem (multiplier_of geometry.parameters) geometry.parameters geometry.growth (block_at keys.now at) (i + 1) (count_at_lem geometry.parameters i)) 8 }
    ensures pages_after { pages.new ≡ paste pages.old at
        (pages_after_lem (multiplier_of geometry.parameters) geometry.parameters geometry.growth (block_at keys.now at) (i + 1)) 8 }
{
    let mut block_keys = [0u64; 8];
    let mut block_groups = [0u16; 8];
    let mut block_pages = [0u16; 8];
    buffers::copy(&mut block_keys, 0, keys, at, 8);
    buffers::copy(&mut block_groups, 0, groups, at, 8);
    buffers::copy(&mut block_pages, 0, pages, at, 8);
    turn(
        geometry,
        sweep,
        stage,
        test,
        i,
        &block_keys,
        &mut block_groups,
        &mut block_pages,
    );
    buffers::copy(groups, at, &block_groups, 0, 8);
    buffers::copy(pages, at, &block_pages, 0, 8);
}

// Step i + 1 of all blocks.
fn turn_all(
    geometry: Geometry,
    sweep: Sweep,
    stage: Stage,
    test: Test,
    i: u32,
    places: usize,
    keys: &[u64; 32],
    groups: &mut [u16; 32],
    pages: &mut [u16; 32],
)
    requires parameters_value { valid_parameters geometry.parameters ≡ true }
    requires growth_value { valid_growth geometry.parameters geometry.growth ≡ true }
    requires i_le_expansions { i ≤ geometry.growth.expansions }
    requires sweep_value { (sweep ≡ sweep_of geometry.parameters.step) × (stage ≡ stage_at geometry.parameters i) }
    requires test_value { test ≡ test_at geometry.parameters geometry.growth i }
    requires places_bound { places ≤ 32 }
    requires groups_len { (length groups.old ≡ 32) × (length pages.old ≡ 32) }
    requires blocks { Blocks places (λ at. Keys (block_at keys.now at)) }
    requires blocks_2 { Blocks places (GroupedAt geometry keys.now i groups.old) }
    requires blocks_3 { Blocks places (PagedAt geometry keys.now i pages.old) }
    ensures groups_len_2 { (length groups.new ≡ 32) × (length pages.new ≡ 32) }
    ensures blocks_4 { Blocks places (RegroupedAt geometry keys.now i groups.new) }
    ensures blocks_5 { Blocks places (PagedAt geometry keys.now (i + 1) pages.new) }
{
    for at in (0..places).step_by(8) {
        turn_at(geometry, sweep, stage, test, i, at, keys, groups, pages);
    }
}

pub fn steps(
    powers: &[u32; 90],
    geometry: Geometry,
    places: usize,
    keys: &[u64; 32],
    pages: &mut [u16; 32],
)
    requires powers_value { powers.now ≡ first_multipliers_lem (multiplier_of geometry.parameters) }
    requires parameters_value { valid_parameters geometry.parameters ≡ true }
    requires growth_value { valid_growth geometry.parameters geometry.growth ≡ true }
    requires places_bound { places ≤ 32 }
    requires pages_len { length pages.old ≡ 32 }
    requires blocks { Blocks places (λ at. Keys (block_at keys.now at)) }
    requires blocks_2 { Blocks places (PagedAt geometry keys.now 0 pages.old) }
    ensures pages_len_2 { length pages.new ≡ 32 }
    ensures blocks_3 { Blocks places (PagedAt geometry keys.now (geometry.growth.expansions + 1) pages.new) }
{
    let sweep = sweep_by(geometry.parameters.step as u16);
    let mut groups = [0u16; 32];
    let mut stage = first_stage(geometry.parameters);
    for i in 0..=geometry.growth.expansions {
        let test = test_of(powers, geometry, stage, i);
        turn_all(
            geometry,
            sweep,
            stage,
            test,
            i,
            places,
            keys,
            &mut groups,
            pages,
        );
        stage = next_stage(geometry.parameters, i, stage);
    }
}
