// Scrambled star numbers and signatures.
ghost use Rattle.std.specs.Prelude.{◌≡◌, true, ◌+◌, ◌*◌, ◌%◌, ◌≤◌, ◌<◌};
ghost use Rattle.generator.specs.Generator.{valid_multiplier, modulus, top_of_lem};
ghost use Rattle.generator.specs.Generator.{scrambled as Generator·scrambled};

// A product mod m. As 2^31 is 1 mod m, the product's two halves are added in place of a division.
pub fn residue(factor: u32, key: u32) -> u32
    requires { (factor < modulus) × (key < modulus) }
    ensures { result ≡ factor * key % modulus }
{
    let product = factor as u64 * key as u64;
    let sum = product / 2147483648 + product % 2147483648;
    if sum < 2147483647 {
        return sum as u32;
    }
    (sum - 2147483647) as u32
}

// Xj of a number, for a caller that asks once.
pub fn scrambled(multiplier: u32, j: usize, number: u32) -> u32
    requires multiplier_value { valid_multiplier multiplier ≡ true }
    requires le_j { (1 ≤ j) × (j ≤ 2049) }
    ensures { result ≡ Generator·scrambled multiplier j number }
{
    let table = crate::copies::multipliers(multiplier);
    residue(table[j - 1], number % 2147483647)
}

// A remainder by 2^bits − 1: a divisor that is known when the code is compiled costs a product, and no division.
pub fn below_top(number: u32, bits: u32) -> u32
    requires { (1 ≤ bits) × (bits ≤ 8) }
    ensures { result ≡ number % top_of_lem bits }
{
    if 8 <= bits {
        return number % 255;
    }
    if 7 <= bits {
        return number % 127;
    }
    if 6 <= bits {
        return number % 63;
    }
    if 5 <= bits {
        return number % 31;
    }
    if 4 <= bits {
        return number % 15;
    }
    if 3 <= bits {
        return number % 7;
    }
    if 2 <= bits {
        return number % 3;
    }
    0
}

// A signature by the multiplier of its page.
pub fn signature_by(factor: u32, bits: u32, number: u32) -> u32
    requires { (factor < modulus) × ((1 ≤ bits) × (bits ≤ 8)) }
    ensures { result ≡ factor * number % modulus % top_of_lem bits }
{
    below_top(residue(factor, number % 2147483647), bits)
}
