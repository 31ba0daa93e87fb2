// The two passes to a home. With every step tested before any move, the processor mispredicts few jumps.
ghost use Rattle.std.specs.Prelude.{◌≡◌, true, ◌+◌, ◌*◌, ◌/◌, ◌%◌, ◌≤◌, ◌<◌, length, take, leb};
ghost use Rattle.generator.specs.Generator.{modulus};
ghost use Rattle.generator.specs.Shape.{first_multipliers_lem};
ghost use Rattle.hashing.specs.Geometry.{multiplier_of, rank};
ghost use Rattle.hashing.specs.Limits.{valid_parameters};
ghost use Rattle.hashing.specs.Moves.{code_at, moves, code_count, code_page, inverse_of_lem, landing, Landed, NarrowRising};

use crate::Parameters;
use crate::ranks::swept;
use generator::residue;

// The steps that choose a number: how many there are, and the code of the step after all those tested.
#[derive(Clone, Copy)]
pub struct Choice {
    pub count: usize,
    pub last: u16,
}

// The page typeof.n.G + order of the step with that code.
#[derive(Clone, Copy)]
pub struct Landing {
    pub code: u16,
    pub order: u16,
}

// Whether the step of that multiplier chooses the number, with groups of that size.
pub fn chosen(factor: u32, key: u32, size: u16) -> bool
    requires factor_lt_modulus { (factor < modulus) × (key < modulus) }
    requires size_bound { size ≤ 7 }
    ensures { result ≡ leb (factor * key % modulus * (size + 1)) modulus }
{
    residue(factor, key) as u64 * (size as u64 + 1) <= 2147483647
}

// The code of the step after the one with that code.
fn next_code(parameters: Parameters, i: u32, code: u16) -> u16
    requires parameters_value { valid_parameters parameters ≡ true }
    requires i_bound { i ≤ 32 }
    requires code_value { code ≡ code_at parameters i }
    ensures { result ≡ code_at parameters (i + 1) }
{
    let width = parameters.width as u16;
    let size = code % 8 + 1;
    if size == 2 * width {
        return code + 9 - width;
    }
    code + 1
}

// Puts the codes of the steps that choose the number at the start of steps.
pub fn choose(
    table: &[u32; 90],
    parameters: Parameters,
    expansions: u32,
    key: u32,
    steps: &mut [u16; 32],
) -> Choice
    requires table_value { table.now ≡ first_multipliers_lem (multiplier_of parameters) }
    requires parameters_value { valid_parameters parameters ≡ true }
    requires expansions_bound { expansions ≤ 32 }
    requires key_lt_modulus { key < modulus }
    requires steps_len { length steps.old ≡ 32 }
    ensures count_le_expansions { result.count ≤ expansions }
    ensures steps_len_2 { length steps.new ≡ 32 }
    ensures steps_after { take result.count steps.new ≡ moves (multiplier_of parameters) parameters key expansions }
    ensures last_value { result.last ≡ code_at parameters expansions }
{
    let mut count: usize = 0;
    let mut code = parameters.width as u16;
    for i in 0..expansions {
        steps[count] = code;
        let taken = chosen(table[2 * i as usize + 1], key, code % 8);
        code = next_code(parameters, i, code);
        if taken {
            count += 1;
        }
    }
    Choice { count, last: code }
}

// G in the step with that code.
pub fn count_of(parameters: Parameters, code: u16) -> u16
    requires parameters_value { valid_parameters parameters ≡ true }
    requires code_bound { code_count parameters code ≤ 1024 }
    ensures { result ≡ code_count parameters code }
{
    (parameters.groups as u16) << (code / 8)
}

// The page typeof.n.G + order of the step with that code.
pub fn page_of(parameters: Parameters, code: u16, order: u16) -> u16
    requires parameters_value { valid_parameters parameters ≡ true }
    requires landed { Landed parameters code order }
    ensures { result ≡ code_page parameters code order }
{
    code % 8 * count_of(parameters, code) + order
}

// The group, in a later step, of the page with that code and order.
fn regrouped(parameters: Parameters, code: u16, order: u16, next: u16) -> u16
    requires parameters_value { valid_parameters parameters ≡ true }
    requires landed { Landed parameters code order }
    requires code_bound { (code / 8 ≤ next / 8) × (code_count parameters next ≤ 1024) }
    ensures { result ≡ code_page parameters code order % code_count parameters next }
{
    let rest = code % 8 % (1 << (next / 8 - code / 8));
    rest * count_of(parameters, code) + order
}

// The rank of a group in the step with that code.
pub fn ranked(parameters: Parameters, inverse: u32, code: u16, group: u16) -> u16
    requires parameters_value { valid_parameters parameters ≡ true }
    requires inverse_value { inverse ≡ inverse_of_lem parameters.step }
    requires group_bound { (group < code_count parameters code) × (code_count parameters code ≤ 1024) }
    ensures { result ≡ rank parameters.step (code_count parameters code) group }
{
    let count = count_of(parameters, code);
    swept(parameters.step as u16, inverse, count, count - 1 - group)
}

// The rank, in a later step, of the group of the page with that code and order.
pub fn moved(parameters: Parameters, inverse: u32, code: u16, order: u16, next: u16) -> u16
    requires parameters_value { valid_parameters parameters ≡ true }
    requires inverse_value { inverse ≡ inverse_of_lem parameters.step }
    requires landed { Landed parameters code order }
    requires code_bound { (code / 8 ≤ next / 8) × (code_count parameters next ≤ 1024) }
    ensures { result ≡ rank parameters.step (code_count parameters next) (code_page parameters code order % code_count parameters next) }
{
    let group = regrouped(parameters, code, order, next);
    ranked(parameters, inverse, next, group)
}

// Where the first count codes of steps lead from a starting page.
pub fn follow(
    parameters: Parameters,
    inverse: u32,
    steps: &[u16; 32],
    count: usize,
    start: u16,
) -> Landing
    requires parameters_value { valid_parameters parameters ≡ true }
    requires inverse_value { inverse ≡ inverse_of_lem parameters.step }
    requires steps_len { length steps.now ≡ 32 }
    requires count_bound { count ≤ 32 }
    requires narrow_rising { NarrowRising parameters 0 (take count steps.now) 10 }
    requires start_bound { start < parameters.width * parameters.groups }
    ensures { result ≡ landing parameters (start / parameters.groups) (start % parameters.groups) (take count steps.now) }
{
    let groups = parameters.groups as u16;
    let mut code = start / groups;
    let mut order = start % groups;
    for &next in &steps[..count] {
        order = moved(parameters, inverse, code, order, next);
        code = next;
    }
    Landing { code, order }
}
