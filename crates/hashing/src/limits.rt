// Tests of the parameters and of the growth state.
ghost use Rattle.std.specs.Prelude.{◌≡◌, true};
ghost use Rattle.hashing.specs.Limits.{valid_parameters, valid_growth};
ghost use Rattle.hashing.specs.Limits.{within as Limits·within};

use crate::groups::{count_at, size_at};
use crate::{Growth, Parameters};

fn within(low: u32, value: u32, high: u32) -> bool
    ensures { result ≡ Limits·within low value high }
{
    low <= value && value <= high
}

pub fn parameters_valid(parameters: Parameters) -> bool
    ensures { result ≡ valid_parameters parameters }
{
    if !within(1, parameters.places, 32) {
        return false;
    }
    if !within(1, parameters.groups, 256) {
        return false;
    }
    if !within(1, parameters.width, 4) {
        return false;
    }
    if !within(1, parameters.step, parameters.groups) {
        return false;
    }
    if !within(1, parameters.bits, 8) {
        return false;
    }
    if !within(1, parameters.load, 99) {
        return false;
    }
    if !within(parameters.width * parameters.groups, parameters.pages, 1024) {
        return false;
    }
    generator::multiplier_valid(parameters.multiplier)
}

// More than ten doublings give more groups than there are pages, so no larger power is taken.
pub fn growth_valid(parameters: Parameters, growth: Growth) -> bool
    requires { valid_parameters parameters ≡ true }
    ensures { result ≡ valid_growth parameters growth }
{
    let expansions = growth.expansions;
    if 10 < expansions / parameters.width {
        return false;
    }
    let count = count_at(parameters, expansions);
    if count <= growth.expanded {
        return false;
    }
    size_at(parameters, expansions) * count + growth.expanded <= parameters.pages
}
