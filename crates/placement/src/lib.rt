// The rule over a stretch stands in specs/ and its laws in proofs/; the code here is the greatest separator.

#![tactic(auto)]

ghost use Rattle.std.specs.Prelude.{◌≡◌, true};
ghost use Rattle.generator.specs.Generator.{top_of_lem};
ghost use Rattle.hashing.specs.Limits.{valid_parameters};

use hashing::Parameters;

// 2^k − 1, the greatest separator.
pub fn top_of(parameters: Parameters) -> u8
    requires { valid_parameters parameters ≡ true }
    ensures { result ≡ top_of_lem parameters.bits }
{
    ((1u32 << parameters.bits) - 1) as u8
}
