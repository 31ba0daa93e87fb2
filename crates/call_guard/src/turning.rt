// Whose turn it is by the growth record: whether a call that writes the file may go on, and what refuses it.
ghost use Rattle.std.specs.Prelude.{◌≡◌, false, ◌&&◌};
ghost use Rattle.placement.specs.File.{File};
ghost use Rattle.placement.specs.Lent.{held};
ghost use Rattle.calls.specs.Answers.{refused_by, placed, unpooled};
ghost use Rattle.calls.specs.Shape.{admission_number};
ghost use Rattle.calls.specs.Calls.{file_fits_lem, pool_fits_lem};
ghost use Rattle.calls.specs.Lent.{pool_before, pool_after_lem};
ghost use Rattle.calls.specs.Records.{valid_steps};
ghost use Rattle.call_guard.specs.Turn.{at_rest_lem, record_refusal, TurnedAway, restored};

use crate::lending::{all_fit, guard};
use calls::answers::{Grown, Placed, Refusal};
use calls::records::{GrowthRecord, Recorded};
use hashing::Parameters;

// "the steps done, below M and 0 if none is open"
#[tactic(auto, unfolding(calls::specs::Records::valid_steps))]
pub fn steps_valid(parameters: Parameters, growth: GrowthRecord) -> bool
    ensures { result ≡ valid_steps parameters growth }
{
    if growth.growing {
        growth.steps < parameters.pages
    } else {
        growth.steps == 0
    }
}

// Nothing is open and the record is valid: a call that writes the file goes on.
#[tactic(auto, unfolding(crate::specs::Turn::at_rest_lem))]
pub fn at_rest(growth: GrowthRecord) -> bool
    ensures { result ≡ at_rest_lem growth }
{
    !growth.growing && growth.steps == 0
}

// Refusals 1 and 2 under a record. `fits`: what is lent is as long as the parameters say.
pub fn admit(parameters: Parameters, growth: GrowthRecord, fits: bool) -> Result<(), Refusal>
    ensures { admission_number result ≡ record_refusal parameters growth fits }
{
    if !steps_valid(parameters, growth) {
        return Err(Refusal::BadParameters);
    }
    guard(parameters, growth.state, fits)
}

// What refuses a call that writes the file and takes no pool, when the record is not at rest.
pub fn out_of_turn(parameters: Parameters, growth: GrowthRecord, fits: bool) -> Refusal
    requires { at_rest_lem growth ≡ false }
    ensures { (f : File) → TurnedAway parameters growth fits f unpooled (refused_by result 0) unpooled }
{
    match admit(parameters, growth, fits) {
        Ok(()) => Refusal::OutOfTurn,
        Err(refusal) => refusal,
    }
}

// The same of a call that takes a pool: 16 leaves it zeros.
pub fn turn_away(
    parameters: Parameters,
    growth: GrowthRecord,
    separators: &[u8],
    numbers: &[u32],
    words: &[u64],
    owners: &[u8],
    poolnumbers: &mut [u32],
    poolwords: &mut [u64],
    poolowners: &mut [u8],
) -> Placed
    requires { at_rest_lem growth ≡ false }
    ensures { TurnedAway parameters growth
        (file_fits_lem parameters (held separators.now numbers.now words.now owners.now) && pool_fits_lem parameters (pool_before poolnumbers poolwords poolowners))
        (held separators.now numbers.now words.now owners.now) (pool_before poolnumbers poolwords poolowners) (placed result) (pool_after_lem poolnumbers poolwords poolowners) }
{
    let fits = all_fit(
        parameters,
        separators.len(),
        numbers.len(),
        words.len(),
        owners.len(),
        poolnumbers.len(),
        poolwords.len(),
        poolowners.len(),
    );
    if let Err(refusal) = admit(parameters, growth, fits) {
        return Placed::Refused(refusal, 0);
    }
    plan_transfer::clear(poolnumbers, poolwords, poolowners);
    Placed::Refused(Refusal::OutOfTurn, 0)
}

// The record after a call with nothing open.
pub fn at_rest_after(grown: Grown) -> Recorded
    ensures { result ≡ restored grown }
{
    let answer = grown.answer;
    let state = grown.growth;
    let growth = GrowthRecord {
        state,
        growing: false,
        steps: 0,
    };
    Recorded { answer, growth }
}
