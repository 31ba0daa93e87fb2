// Which multipliers there are, and their tables.
ghost use Rattle.std.specs.Prelude.{◌≡◌, true};
ghost use Rattle.generator.specs.Generator.{valid_multiplier};
ghost use Rattle.generator.specs.Shape.{first_multipliers_lem};
ghost use Rattle.generator.specs.Generator.{multipliers as Generator·multipliers};

use crate::firsts::{FIRST_16807, FIRST_48271};
use crate::table::{MULTIPLIERS_16807, MULTIPLIERS_48271};

pub fn multiplier_valid(multiplier: u32) -> bool
    ensures { result ≡ valid_multiplier multiplier }
{
    multiplier == 16807 || multiplier == 48271
}

// A copy of the multiplier's table, 8 KB: for a caller that probes a page past the 44th from a home, which lends it on by reference.
pub fn multipliers(multiplier: u32) -> [u32; 2049]
    requires { valid_multiplier multiplier ≡ true }
    ensures { result ≡ Generator·multipliers multiplier }
{
    if multiplier == 48271 {
        return MULTIPLIERS_48271;
    }
    MULTIPLIERS_16807
}

// The same of its first ninety: those of every home, and of the signatures on the first 44 pages probed.
pub fn first_multipliers(multiplier: u32) -> [u32; 90]
    requires { valid_multiplier multiplier ≡ true }
    ensures { result ≡ first_multipliers_lem multiplier }
{
    if multiplier == 48271 {
        return FIRST_48271;
    }
    FIRST_16807
}
