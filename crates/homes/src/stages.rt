// The constants of a step, taken from step to step without a division, and of the sweeps.
ghost use Rattle.std.specs.Prelude.{◌≡◌, true, ◌+◌, ◌*◌, ◌/◌, ◌%◌, ◌≤◌};
ghost use Rattle.generator.specs.Generator.{modulus};
ghost use Rattle.generator.specs.Shape.{first_multipliers_lem};
ghost use Rattle.hashing.specs.Geometry.{multiplier_of, count_at_lem};
ghost use Rattle.hashing.specs.Limits.{valid_parameters, valid_growth};
ghost use Rattle.homes.specs.Stages.{stage_at, sweep_of, limit_at, test_at};

use hashing::{Geometry, Parameters};

#[derive(Clone, Copy)]
pub struct Stage {
    pub size: u16, // n
    pub count: u16, // G
    pub part: u16, // G div s
    pub rest: u16, // G mod s
}

#[derive(Clone, Copy)]
pub struct Sweep {
    pub step: u16, // s
    pub inverse: u16,
    pub shift: u16,
}

// What decides whether a step moves a number.
#[derive(Clone, Copy)]
pub struct Test {
    pub factor: u32, // of X(2i)
    pub most: u32, // the greatest X(2i) chosen
    pub limit: u16, // ranks below it move
}

pub fn first_stage(parameters: Parameters) -> Stage
    requires { valid_parameters parameters ≡ true }
    ensures { result ≡ stage_at parameters 0 }
{
    Stage {
        size: parameters.width as u16,
        count: parameters.groups as u16,
        part: (parameters.groups / parameters.step) as u16,
        rest: (parameters.groups % parameters.step) as u16,
    }
}

// The groups grow by a page, or double and start again with their first size.
pub fn next_stage(parameters: Parameters, i: u32, stage: Stage) -> Stage
    requires parameters_value { valid_parameters parameters ≡ true }
    requires stage_value { stage ≡ stage_at parameters i }
    requires i_bound { count_at_lem parameters i ≤ 1024 }
    ensures { result ≡ stage_at parameters (i + 1) }
{
    let width = parameters.width as u16;
    let size = stage.size + 1;
    if size < 2 * width {
        return Stage {
            size,
            count: stage.count,
            part: stage.part,
            rest: stage.rest,
        };
    }
    doubled(parameters.step as u16, width, stage)
}

fn doubled(step: u16, width: u16, stage: Stage) -> Stage
    requires le_step { (1 ≤ step) × (step ≤ 256) }
    requires count_bound { (stage.count ≤ 1024) × ((stage.part ≡ stage.count / step) × (stage.rest ≡ stage.count % step)) }
    ensures { result ≡ record { size = width; count = 2 * stage.count; part = 2 * stage.count / step; rest = 2 * stage.count % step } }
{
    let rest = 2 * stage.rest;
    if rest < step {
        return Stage {
            size: width,
            count: 2 * stage.count,
            part: 2 * stage.part,
            rest,
        };
    }
    Stage {
        size: width,
        count: 2 * stage.count,
        part: 2 * stage.part + 1,
        rest: rest - step,
    }
}

// m div (n + 1), the greatest number that a step with groups of n pages chooses.
fn most_chosen(size: u16) -> u32
    requires { (1 ≤ size) × (size ≤ 7) }
    ensures { result ≡ modulus / (size + 1) }
{
    match size {
        1 => 1073741823,
        2 => 715827882,
        3 => 536870911,
        4 => 429496729,
        5 => 357913941,
        6 => 306783378,
        _ => 268435455,
    }
}

pub fn sweep_by(step: u16) -> Sweep
    requires { 1 ≤ step }
    ensures { result ≡ sweep_of step }
{
    if step <= 64 {
        return Sweep {
            step,
            inverse: 65535 / step,
            shift: 0,
        };
    }
    Sweep {
        step,
        inverse: (262143 / step as u32) as u16,
        shift: 2,
    }
}

pub fn test_of(powers: &[u32; 90], geometry: Geometry, stage: Stage, i: u32) -> Test
    requires powers_value { powers.now ≡ first_multipliers_lem (multiplier_of geometry.parameters) }
    requires parameters_value { valid_parameters geometry.parameters ≡ true }
    requires growth_value { valid_growth geometry.parameters geometry.growth ≡ true }
    requires i_le_expansions { i ≤ geometry.growth.expansions }
    requires stage_value { stage ≡ stage_at geometry.parameters i }
    ensures { result ≡ test_at geometry.parameters geometry.growth i }
{
    Test {
        factor: powers[2 * i as usize + 1],
        most: most_chosen(stage.size),
        limit: limit(geometry, stage, i),
    }
}

fn limit(geometry: Geometry, stage: Stage, i: u32) -> u16
    requires stage_value { stage ≡ stage_at geometry.parameters i }
    requires expanded_bound { geometry.growth.expanded ≤ 1024 }
    ensures { result ≡ limit_at geometry.parameters geometry.growth i }
{
    if i < geometry.growth.expansions {
        return stage.count;
    }
    geometry.growth.expanded as u16
}
