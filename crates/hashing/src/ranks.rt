// The rank of a group, by backward sweeps. No rank, group or group count passes 1,024.
ghost use Rattle.std.specs.Prelude.{◌≡◌, ◌+◌, ◌*◌, ◌/◌, ◌^◌, ◌<◌, ◌≤◌, min};
ghost use Rattle.hashing.specs.Geometry.{rank as Geometry·rank, swept as Geometry·swept};
ghost use Rattle.hashing.specs.Moves.{inverse_of_lem};

// The rank of a group among count groups, for a caller that asks once.
pub fn rank(step: u16, count: u16, group: u16) -> u16
    requires le_step { (1 ≤ step) × (step ≤ 256) }
    requires group_lt_count { (group < count) × (count ≤ 1024) }
    ensures { result ≡ Geometry·rank step count group }
{
    let inverse = 524288 / step as u32 + 1;
    swept(step, inverse, count, count - 1 - group)
}

// w·(G div s) + the smaller of w and G mod s + t div s, with products by the inverse of s in place of divisions.
pub fn swept(step: u16, inverse: u32, count: u16, t: u16) -> u16
    requires le_step { (1 ≤ step) × (step ≤ 256) }
    requires inverse_value { inverse ≡ inverse_of_lem step }
    requires t_lt_count { (t < count) × (count ≤ 1024) }
    ensures { result ≡ Geometry·swept step count t }
{
    if step == 1 {
        return t;
    }
    let part = divided(count, step, inverse);
    let most = count - part * step;
    let sweep = divided(t, step, inverse);
    let w = t - sweep * step;
    in_sweep(w, part, most, sweep)
}

// A quotient, as a product by the inverse of the divisor.
fn divided(number: u16, divisor: u16, inverse: u32) -> u16
    requires le_divisor { (1 ≤ divisor) × (divisor ≤ 256) }
    requires inverse_value { inverse ≡ inverse_of_lem divisor }
    requires number_bound { number ≤ 1024 }
    ensures { result ≡ number / divisor }
{
    (number as u32 * inverse / 524288) as u16
}

// w sweeps of part groups, of which the first most have one more, and then some groups.
fn in_sweep(w: u16, part: u16, most: u16, rest: u16) -> u16
    requires { w * part + min w most + rest < 2 ^ 16 }
    ensures { result ≡ w * part + min w most + rest }
{
    if w < most {
        return w * part + w + rest;
    }
    w * part + most + rest
}
