// A page that takes one more star by itself.
ghost use Rattle.std.specs.Prelude.{◌≡◌, true, ◌+◌, ◌*◌, ◌≤◌, ◌<◌, length};
ghost use Rattle.hashing.specs.Limits.{valid_parameters};
ghost use Rattle.page_edit.specs.Shift.{takes_alone_lem};

use hashing::Parameters;

// Whether a page takes one more star of its home alone: its separator is 2^k − 1, which ends the reach, and its last place is empty, so that
// all stay under it.
pub fn takes_alone(parameters: Parameters, separators: &[u8], numbers: &[u32], page: usize) -> bool
    requires parameters_value { valid_parameters parameters ≡ true }
    requires page_in_bounds { page < length separators.now }
    requires places_in_bounds { page * parameters.places + parameters.places ≤ length numbers.now }
    ensures { result ≡ takes_alone_lem parameters separators.now numbers.now page }
{
    let places = parameters.places as usize;
    if separators[page] != placement::top_of(parameters) {
        return false;
    }
    let last = places - 1;
    numbers[page * places + last] == 0
}
