// Each loop takes one function of `scalars` over eight places, and becomes a run of vector instructions.
ghost use Rattle.std.specs.Prelude.{◌≡◌, ◌+◌, ◌*◌, ◌/◌, ◌%◌, ◌≤◌, ◌<◌, length, get_or};
ghost use Rattle.generator.specs.Generator.{modulus};
ghost use Rattle.hashing.specs.Geometry.{rank};
ghost use Rattle.homes.specs.Stages.{Rankable};
ghost use Rattle.homes.specs.Lanes.{KeysOf, Under, Keys, hit_of, moved_by_lem};
ghost use Rattle.homes.specs.Indexed.{lanes};

use crate::scalars::{group, hit, keyed, moved, ranked, start};
use crate::stages::{Stage, Sweep};

pub fn starts(factor: u32, span: u16, inverse: u32, keys: &[u64; 8], pages: &mut [u16; 8])
    requires factor_lt_modulus { factor < modulus }
    requires keys { Keys keys.now }
    requires le_span { (1 ≤ span) × ((span ≤ 1024) × (inverse ≡ 4294967295 / span)) }
    requires pages_len { length pages.old ≡ 8 }
    ensures { pages.new ≡ lanes 8 (λ i. factor * get_or keys.now i 0 % modulus % span) }
{
    for i in 0..8 {
        pages[i] = start(factor, span, inverse, keys[i]);
    }
}

pub fn tests(factor: u32, most: u32, keys: &[u64; 8], hits: &mut [u16; 8])
    requires factor_lt_modulus { factor < modulus }
    requires keys { Keys keys.now }
    requires most_lt_modulus { most < modulus }
    requires hits_len { length hits.old ≡ 8 }
    ensures { hits.new ≡ lanes 8 (λ i. hit_of factor most (get_or keys.now i 0)) }
{
    for i in 0..8 {
        hits[i] = hit(factor, most, keys[i]);
    }
}

pub fn groups_of(count: u16, pages: &[u16; 8], groups: &mut [u16; 8])
    requires le_count { (1 ≤ count) × (count ≤ 1024) }
    requires under { Under (4 * count) pages.now }
    requires groups_len { length groups.old ≡ 8 }
    ensures { groups.new ≡ lanes 8 (λ i. get_or pages.now i 0 % count) }
{
    for i in 0..8 {
        groups[i] = group(pages[i], count);
    }
}

pub fn ranks(sweep: Sweep, stage: Stage, groups: &[u16; 8], orders: &mut [u16; 8])
    requires rankable { Rankable sweep stage }
    requires under { Under stage.count groups.now }
    requires orders_len { length orders.old ≡ 8 }
    ensures { orders.new ≡ lanes 8 (λ i. rank sweep.step stage.count (get_or groups.now i 0)) }
{
    for i in 0..8 {
        orders[i] = ranked(sweep, stage, groups[i]);
    }
}

pub fn moves(limit: u16, first: u16, hits: &[u16; 8], orders: &[u16; 8], old: &mut [u16; 8])
    requires first_bound { first ≤ 8192 }
    requires under { Under 1024 orders.now }
    requires len { length old.old ≡ 8 }
    ensures { old.new ≡ lanes 8 (λ i. moved_by_lem limit first (get_or hits.now i 0) (get_or orders.now i 0) (get_or old.old i 0)) }
{
    for i in 0..8 {
        old[i] = moved(limit, first, hits[i], orders[i], old[i]);
    }
}

// The keys of a block's numbers.
pub fn keys_of(numbers: &[u32; 32], at: usize, keys: &mut [u64; 8])
    requires at_bound { at + 8 ≤ 32 }
    requires keys_len { length keys.old ≡ 8 }
    ensures { KeysOf numbers.now at keys.new }
{
    for i in 0..8 {
        keys[i] = keyed(numbers[at + i]);
    }
}
