// What becomes of one number, in forms that vectorise: no division and no jump is left.
ghost use Rattle.std.specs.Prelude.{◌≡◌, ◌+◌, ◌*◌, ◌/◌, ◌%◌, ◌≤◌, ◌<◌, min};
ghost use Rattle.generator.specs.Generator.{modulus};
ghost use Rattle.hashing.specs.Geometry.{rank};
ghost use Rattle.homes.specs.Stages.{sweep_of, Rankable};
ghost use Rattle.homes.specs.Lanes.{residue_of, hit_of, moved_by_lem};

use crate::stages::{Stage, Sweep};

// At most 2^31, in a lane as wide as the product.
pub fn keyed(number: u32) -> u64
    ensures { (result ≡ residue_of number) × (result ≤ 2147483648) }
{
    (number / 2147483648 + number % 2147483648) as u64
}

// A number with the remainder of factor·key. Doubled, the product's halves fall on word bounds, and their sum fits a word; both
// factors are masked, so that one multiplication of 32 bits is enough.
fn near(factor: u32, key: u64) -> u32
    requires factor_lt_modulus { factor < modulus }
    requires key_bound { key ≤ 2147483648 }
    ensures { (result % modulus ≡ factor * key % modulus) × (result ≤ modulus) }
{
    let product = 2 * factor as u64 % 4294967296 * (key % 4294967296);
    let sum = (product / 4294967296) as u32 + (product % 4294967296) as u32 / 2;
    sum / 2147483648 + sum % 2147483648
}

// With one added, m passes as its remainder 0 does.
pub fn hit(factor: u32, most: u32, key: u64) -> u16
    requires factor_lt_modulus { factor < modulus }
    requires key_bound { key ≤ 2147483648 }
    requires most_lt_modulus { most < modulus }
    ensures { result ≡ hit_of factor most key }
{
    let next = (near(factor, key) + 1) % 2147483648;
    if next <= most + 1 {
        return 1;
    }
    0
}

// The quotient by an inverse rounded down is at most one too low.
pub fn start(factor: u32, span: u16, inverse: u32, key: u64) -> u16
    requires factor_lt_modulus { factor < modulus }
    requires key_bound { key ≤ 2147483648 }
    requires le_span { (1 ≤ span) × ((span ≤ 1024) × (inverse ≡ 4294967295 / span)) }
    ensures { result ≡ factor * key % modulus % span }
{
    let value = settled(near(factor, key));
    let turns = (value as u64 % 4294967296 * (inverse as u64 % 4294967296) / 4294967296) as u32;
    reduced((value - turns * span as u32) as u16, span)
}

fn settled(value: u32) -> u32
    requires { value ≤ modulus }
    ensures { result ≡ value % modulus }
{
    if value < 2147483647 {
        return value;
    }
    0
}

fn smaller(x: u16, y: u16) -> u16
    ensures { result ≡ min x y }
{
    if x < y {
        return x;
    }
    y
}

fn reduced(value: u16, count: u16) -> u16
    requires { value < 2 * count }
    ensures { result ≡ value % count }
{
    if value < count {
        return value;
    }
    value - count
}

// page mod G, of a page below 4·G.
pub fn group(page: u16, count: u16) -> u16
    requires le_count { (1 ≤ count) × (count ≤ 1024) }
    requires page_bound { page < 4 * count }
    ensures { result ≡ page % count }
{
    reduced(reduced(page, 2 * count), count)
}

// t + 1 is added in 16 bits, so that the product's upper half is one instruction.
fn divided(sweep: Sweep, t: u16) -> u16
    requires sweep_value { sweep ≡ sweep_of sweep.step }
    requires le_step { (1 ≤ sweep.step) × (sweep.step ≤ 256) }
    requires t_bound { t < 1024 }
    ensures { result ≡ t / sweep.step }
{
    ((t + 1) as u32 * sweep.inverse as u32 / 65536) as u16 >> sweep.shift
}

pub fn ranked(sweep: Sweep, stage: Stage, group: u16) -> u16
    requires rankable { Rankable sweep stage }
    requires group_lt_count { group < stage.count }
    ensures { result ≡ rank sweep.step stage.count group }
{
    let t = stage.count - 1 - group;
    let turns = divided(sweep, t);
    let w = t - turns * sweep.step;
    w * stage.part + smaller(w, stage.rest) + turns
}

pub fn moved(limit: u16, first: u16, hit: u16, order: u16, old: u16) -> u16
    requires { first + order < 65536 }
    ensures { result ≡ moved_by_lem limit first hit order old }
{
    if hit == 0 {
        return old;
    }
    if limit <= order {
        return old;
    }
    first + order
}
