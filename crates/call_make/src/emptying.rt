// Making an empty file.
ghost use Rattle.std.specs.Prelude.{◌≡◌, true};
ghost use Rattle.hashing.specs.Limits.{valid_parameters};
ghost use Rattle.placement.specs.Shape.{Sized};
ghost use Rattle.calls.specs.Answers.{Leaves, unpooled, placed};
ghost use Rattle.calls.specs.Calls.{make_of, empty_file_lem};
ghost use Rattle.placement.specs.Lent.{held, before, after};

use call_guard::{file_fits, guard};
use calls::answers::{Grown, Placed};
use hashing::{Growth, Parameters};

// The file is left as document 01's empty file. No growth state is read: a new file's is (0, 0).
pub fn make(
    parameters: Parameters,
    separators: &mut [u8],
    numbers: &mut [u32],
    words: &mut [u64],
    owners: &mut [u8],
) -> Grown
    ensures leaves { Leaves (make_of parameters (before separators numbers words owners) unpooled)
        (placed result.answer) (after separators numbers words owners) unpooled }
    ensures growth_value { result.growth ≡ (make_of parameters (before separators numbers words owners) unpooled).growth }
{
    let growth = Growth {
        expansions: 0,
        expanded: 0,
    };
    let fits = file_fits(
        parameters,
        separators.len(),
        numbers.len(),
        words.len(),
        owners.len(),
    );
    if let Err(refusal) = guard(parameters, growth, fits) {
        return Grown {
            answer: Placed::Refused(refusal, 0),
            growth,
        };
    }
    empty(parameters, separators, numbers, words, owners);
    Grown {
        answer: Placed::On(0, 0),
        growth,
    }
}

// "An empty file is separators 2^k − 1, all else 0"
pub fn empty(
    parameters: Parameters,
    separators: &mut [u8],
    numbers: &mut [u32],
    words: &mut [u64],
    owners: &mut [u8],
)
    requires parameters_value { valid_parameters parameters ≡ true }
    requires sized { Sized parameters.places parameters.pages (held separators.old numbers.old words.old owners.old) }
    ensures { after separators numbers words owners ≡ empty_file_lem parameters }
{
    let top = placement::top_of(parameters);
    buffers::fill(separators, top);
    plan_transfer::clear(numbers, words, owners);
}
