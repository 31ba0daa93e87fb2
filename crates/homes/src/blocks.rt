// One step of eight numbers.
ghost use Rattle.std.specs.Prelude.{◌≡◌, true, ◌+◌, ◌*◌, ◌/◌, ◌%◌, ◌≤◌, ◌<◌, length, get_or};
ghost use Rattle.generator.specs.Generator.{modulus};
ghost use Rattle.hashing.specs.Geometry.{multiplier_of, count_at_lem};
ghost use Rattle.hashing.specs.Limits.{valid_parameters, valid_growth};
ghost use Rattle.homes.specs.Stages.{stage_at, sweep_of, test_at, Rankable};
ghost use Rattle.homes.specs.Lanes.{Under, Keys, stepped, pages_after_lem, groups_after_lem, Grouped};
ghost use Rattle.homes.specs.Indexed.{lanes};

use crate::lanes::{groups_of, moves, ranks, tests};
use crate::stages::{Stage, Sweep, Test};
use hashing::Geometry;

// One step of groups and pages.
fn step(
    test: Test,
    sweep: Sweep,
    stage: Stage,
    keys: &[u64; 8],
    groups: &mut [u16; 8],
    pages: &mut [u16; 8],
)
    requires factor_lt_modulus { (test.factor < modulus) × (test.most ≡ modulus / (stage.size + 1)) }
    requires rankable { Rankable sweep stage }
    requires keys { Keys keys.now }
    requires under { Under stage.count groups.old }
    requires groups_len { (length groups.old ≡ 8) × (length pages.old ≡ 8) }
    ensures groups_after { groups.new ≡ stepped test.factor sweep stage test.limit 0 keys.now groups.old groups.old }
    ensures pages_after { pages.new ≡ stepped test.factor sweep stage test.limit (stage.size * stage.count) keys.now groups.old pages.old }
{
    let mut hits = [0u16; 8];
    let mut orders = [0u16; 8];
    tests(test.factor, test.most, keys, &mut hits);
    ranks(sweep, stage, groups, &mut orders);
    moves(test.limit, 0, &hits, &orders, groups);
    moves(test.limit, stage.size * stage.count, &hits, &orders, pages);
}

// The groups anew, where they have just doubled.
fn regroup(width: u32, stage: Stage, pages: &[u16; 8], groups: &mut [u16; 8])
    requires width_bound { (width ≤ 4) × ((1 ≤ stage.count) × (stage.count ≤ 1024)) }
    requires under { Under (stage.size * stage.count) pages.now }
    requires groups_len { length groups.old ≡ 8 }
    requires groups_value { (stage.size ≡ width → ⊥) → groups.old ≡ lanes 8 (λ i. get_or pages.now i 0 % stage.count) }
    ensures { groups.new ≡ lanes 8 (λ i. get_or pages.now i 0 % stage.count) }
{
    if stage.size as u32 != width {
        return;
    }
    groups_of(stage.count, pages, groups);
}

// Step i + 1.
pub fn turn(
    geometry: Geometry,
    sweep: Sweep,
    stage: Stage,
    test: Test,
    i: u32,
    keys: &[u64; 8],
    groups: &mut [u16; 8],
    pages: &mut [u16; 8],
)
    requires parameters_value { valid_parameters geometry.parameters ≡ true }
    requires growth_value { valid_growth geometry.parameters geometry.growth ≡ true }
    requires i_le_expansions { i ≤ geometry.growth.expansions }
    requires sweep_value { (sweep ≡ sweep_of geometry.parameters.step) × (stage ≡ stage_at geometry.parameters i) }
    requires test_value { test ≡ test_at geometry.parameters geometry.growth i }
    requires keys { (Keys keys.now) × (length groups.old ≡ 8) }
    requires grouped { Grouped (multiplier_of geometry.parameters) geometry.parameters geometry.growth keys.now i groups.old }
    requires pages_value { pages.old ≡ pages_after_lem (multiplier_of geometry.parameters) geometry.parameters geometry.growth keys.now i }
    ensures groups_after { groups.new ≡ groups_after_lem (multiplier_of geometry.parameters) geometry.parameters geometry.growth
        keys.now (i + 1) (count_at_lem geometry.parameters i) }
    ensures pages_after { pages.new ≡ pages_after_lem (multiplier_of geometry.parameters) geometry.parameters geometry.growth keys.now (i + 1) }
{
    regroup(geometry.parameters.width, stage, pages, groups);
    step(test, sweep, stage, keys, groups, pages);
}
