// The call: refusals 1, 2 and 16, then the pages.
ghost use Rattle.std.specs.Prelude.{◌≡◌, ◌*◌, length};
ghost use Rattle.placement.specs.Lent.{held, before, after};
ghost use Rattle.calls.specs.Answers.{Pool, placed};
ghost use Rattle.calls.specs.Carry.{carry_of, carry_states, valid_state};
ghost use Rattle.calls.specs.Lent.{pool_before, pool_after_lem};
ghost use Rattle.calls.specs.Shape.{Admitted};
ghost use Rattle.calls.specs.Records.{LeavesStep};
ghost use Rattle.carrying.specs.Carried.{carry_admitted, StoresCarry};

use crate::second::carry_pages;
use call_guard::{all_fit, file_fits, steps_valid};
use calls::answers::{Placed, Refusal};
use calls::records::{GrowthRecord, Recorded};
use hashing::{Geometry, Parameters};
use outcome_answer::placed_from;

fn state_valid(parameters: Parameters, growth: GrowthRecord) -> bool
    ensures { result ≡ valid_state parameters growth }
{
    if !hashing::parameters_valid(parameters) {
        return false;
    }
    if !hashing::growth_valid(parameters, growth.state) {
        return false;
    }
    steps_valid(parameters, growth)
}

// Both files' parameters and records, and "to the other multiplier".
fn states_valid(
    parameters: Parameters,
    growth: GrowthRecord,
    newparameters: Parameters,
    newgrowth: GrowthRecord,
) -> bool
    ensures { result ≡ carry_states parameters growth newparameters newgrowth }
{
    if !state_valid(parameters, growth) {
        return false;
    }
    if !state_valid(newparameters, newgrowth) {
        return false;
    }
    parameters.multiplier != newparameters.multiplier
}

// 16, then what refuses the pages. The pool is scratch.
fn carry_second(
    parameters: Parameters,
    growth: GrowthRecord,
    separators: &[u8],
    numbers: &[u32],
    words: &[u64],
    owners: &[u8],
    newparameters: Parameters,
    newgrowth: GrowthRecord,
    secondseparators: &mut [u8],
    secondnumbers: &mut [u32],
    secondwords: &mut [u64],
    secondowners: &mut [u8],
    poolnumbers: &mut [u32],
    poolwords: &mut [u64],
) -> Placed
    requires admitted { Admitted parameters growth.state (held separators.now numbers.now words.now owners.now) }
    requires admitted_2 { Admitted newparameters newgrowth.state (held secondseparators.old secondnumbers.old secondwords.old secondowners.old) }
    requires poolnumbers_len { length poolnumbers.old ≡ newparameters.pages * newparameters.places }
    requires poolwords_len { length poolwords.old ≡ newparameters.pages * newparameters.places }
    ensures { (pool : Pool) → StoresCarry (carry_admitted parameters growth (held separators.now numbers.now words.now owners.now) newparameters newgrowth
        (before secondseparators secondnumbers secondwords secondowners) pool) (placed result) (after secondseparators secondnumbers secondwords secondowners) }
{
    if newgrowth.growing {
        return Placed::Refused(Refusal::OutOfTurn, 0);
    }
    let state = growth.state;
    let old = Geometry {
        parameters,
        growth: state,
    };
    let newstate = newgrowth.state;
    let new = Geometry {
        parameters: newparameters,
        growth: newstate,
    };
    let outcome = carry_pages(
        old,
        new,
        separators,
        numbers,
        words,
        owners,
        secondseparators,
        secondnumbers,
        secondwords,
        secondowners,
        poolnumbers,
        poolwords,
    );
    placed_from(outcome, 0)
}

// The old file is only read. The new file's record is answered as it was lent.
pub fn carry(
    parameters: Parameters,
    growth: GrowthRecord,
    separators: &[u8],
    numbers: &[u32],
    words: &[u64],
    owners: &[u8],
    newparameters: Parameters,
    newgrowth: GrowthRecord,
    secondseparators: &mut [u8],
    secondnumbers: &mut [u32],
    secondwords: &mut [u64],
    secondowners: &mut [u8],
    poolnumbers: &mut [u32],
    poolwords: &mut [u64],
    poolowners: &mut [u8],
) -> Recorded
    ensures leaves { LeavesStep (carry_of parameters growth (held separators.now numbers.now words.now owners.now) newparameters newgrowth
        (before secondseparators secondnumbers secondwords secondowners) (pool_before poolnumbers poolwords poolowners))
        result (after secondseparators secondnumbers secondwords secondowners) (pool_after_lem poolnumbers poolwords poolowners) }
{
    if !states_valid(parameters, growth, newparameters, newgrowth) {
        return Recorded {
            answer: Placed::Refused(Refusal::BadParameters, 0),
            growth: newgrowth,
        };
    }
    if !file_fits(
        parameters,
        separators.len(),
        numbers.len(),
        words.len(),
        owners.len(),
    ) {
        return Recorded {
            answer: Placed::Refused(Refusal::BadLength, 0),
            growth: newgrowth,
        };
    }
    if !all_fit(
        newparameters,
        secondseparators.len(),
        secondnumbers.len(),
        secondwords.len(),
        secondowners.len(),
        poolnumbers.len(),
        poolwords.len(),
        poolowners.len(),
    ) {
        return Recorded {
            answer: Placed::Refused(Refusal::BadLength, 0),
            growth: newgrowth,
        };
    }
    let answer = carry_second(
        parameters,
        growth,
        separators,
        numbers,
        words,
        owners,
        newparameters,
        newgrowth,
        secondseparators,
        secondnumbers,
        secondwords,
        secondowners,
        poolnumbers,
        poolwords,
    );
    plan_transfer::clear(poolnumbers, poolwords, poolowners);
    Recorded {
        answer,
        growth: newgrowth,
    }
}
