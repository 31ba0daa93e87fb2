// Refusals 1 and 2: parameters, growth state and the lengths of what is lent.
ghost use Rattle.std.specs.Prelude.{◌≡◌, ◌&&◌};
ghost use Rattle.hashing.specs.Limits.{valid_parameters, valid_growth};
ghost use Rattle.calls.specs.Shape.{admission_number};
ghost use Rattle.calls.specs.Calls.{file_lengths, pool_lengths, unlent};

use calls::answers::Refusal;
use hashing::{Growth, Parameters};

// What every call begins with. `fits`: what is lent is as long as the parameters say.
pub fn guard(parameters: Parameters, growth: Growth, fits: bool) -> Result<(), Refusal>
    ensures { admission_number result ≡ unlent parameters growth fits }
{
    if !state_valid(parameters, growth) {
        return Err(Refusal::BadParameters);
    }
    if !fits {
        return Err(Refusal::BadLength);
    }
    Ok(())
}

fn state_valid(parameters: Parameters, growth: Growth) -> bool
    ensures { result ≡ (valid_parameters parameters && valid_growth parameters growth) }
{
    hashing::parameters_valid(parameters) && hashing::growth_valid(parameters, growth)
}

// M separators, M·b numbers, M·b words and M·b owners.
pub fn file_fits(
    parameters: Parameters,
    separators: usize,
    numbers: usize,
    words: usize,
    owners: usize,
) -> bool
    ensures { result ≡ file_lengths parameters separators numbers words owners }
{
    separators == parameters.pages as usize && pool_fits(parameters, numbers, words, owners)
}

fn pool_fits(parameters: Parameters, numbers: usize, words: usize, owners: usize) -> bool
    ensures { result ≡ pool_lengths parameters numbers words owners }
{
    let items = parameters.pages as usize * parameters.places as usize;
    numbers == items && words == items && owners == items
}

// The file and the pool.
pub fn all_fit(
    parameters: Parameters,
    separators: usize,
    numbers: usize,
    words: usize,
    owners: usize,
    poolnumbers: usize,
    poolwords: usize,
    poolowners: usize,
) -> bool
    ensures { result ≡ (file_lengths parameters separators numbers words owners && pool_lengths parameters poolnumbers poolwords poolowners) }
{
    file_fits(parameters, separators, numbers, words, owners)
        && pool_fits(parameters, poolnumbers, poolwords, poolowners)
}
