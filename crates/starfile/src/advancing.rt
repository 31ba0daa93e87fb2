// A step of an open growth: the next page of it in the second set, document 02 (xiii).
ghost use Rattle.std.specs.Prelude.{◌≡◌, true, ◌<◌};
ghost use Rattle.placement.specs.Shape.{Sized};
ghost use Rattle.placement.specs.Lent.{held, before, after};
ghost use Rattle.placement.specs.Ready.{Pooled};
ghost use Rattle.calls.specs.Answers.{Pool};
ghost use Rattle.calls.specs.Shape.{Admitted};
ghost use Rattle.calls.specs.Records.{LeavesStep, step_under, valid_steps};
ghost use Rattle.starfile.specs.Steps.{step_admitted, StoresStep, advanced_by};
ghost use Rattle.calls.specs.Lent.{pool_before, pool_after_lem};

use crate::opening::both_fit;
use crate::whole::{accepted, write_page};
use call_guard::{admit, at_rest_after};
use calls::answers::{Grown, Placed, Refusal};
use calls::records::{GrowthRecord, Recorded};
use hashing::Parameters;

// The file is only read. "step M answers the new page, and then the second set is the file"
pub fn step_growth(
    parameters: Parameters,
    growth: GrowthRecord,
    separators: &[u8],
    numbers: &[u32],
    words: &[u64],
    owners: &[u8],
    secondseparators: &mut [u8],
    secondnumbers: &mut [u32],
    secondwords: &mut [u64],
    secondowners: &mut [u8],
    poolnumbers: &mut [u32],
    poolwords: &mut [u64],
    poolowners: &mut [u8],
) -> Recorded
    ensures leaves { LeavesStep (step_under parameters growth (held separators.now numbers.now words.now owners.now)
        (before secondseparators secondnumbers secondwords secondowners) (pool_before poolnumbers poolwords poolowners))
        result (after secondseparators secondnumbers secondwords secondowners) (pool_after_lem poolnumbers poolwords poolowners) }
{
    let fits = both_fit(
        parameters,
        separators.len(),
        numbers.len(),
        words.len(),
        owners.len(),
        secondseparators.len(),
        secondnumbers.len(),
        secondwords.len(),
        secondowners.len(),
        poolnumbers.len(),
        poolwords.len(),
        poolowners.len(),
    );
    if let Err(refusal) = admit(parameters, growth, fits) {
        return Recorded {
            answer: Placed::Refused(refusal, 0),
            growth,
        };
    }
    let stepped = step_second(
        parameters,
        growth,
        separators,
        numbers,
        words,
        owners,
        secondseparators,
        secondnumbers,
        secondwords,
        secondowners,
        poolnumbers,
        poolwords,
        poolowners,
    );
    plan_transfer::clear(poolnumbers, poolwords, poolowners);
    stepped
}

// 16 "when nothing is open", then what refuses the growth. The pool is scratch.
fn step_second(
    parameters: Parameters,
    growth: GrowthRecord,
    separators: &[u8],
    numbers: &[u32],
    words: &[u64],
    owners: &[u8],
    secondseparators: &mut [u8],
    secondnumbers: &mut [u32],
    secondwords: &mut [u64],
    secondowners: &mut [u8],
    poolnumbers: &mut [u32],
    poolwords: &mut [u64],
    poolowners: &mut [u8],
) -> Recorded
    requires admitted { Admitted parameters growth.state (held separators.now numbers.now words.now owners.now) }
    requires sized { Sized parameters.places parameters.pages (held secondseparators.old secondnumbers.old secondwords.old secondowners.old) }
    requires pooled { Pooled parameters poolnumbers.old poolwords.old poolowners.old }
    requires growth_value { valid_steps parameters growth ≡ true }
    ensures { (pool : Pool) → StoresStep (step_admitted parameters growth (held separators.now numbers.now words.now owners.now)
        (before secondseparators secondnumbers secondwords secondowners) pool) result (after secondseparators secondnumbers secondwords secondowners) }
{
    if !growth.growing {
        return Recorded {
            answer: Placed::Refused(Refusal::OutOfTurn, 0),
            growth,
        };
    }
    let grown = write_page(
        parameters,
        growth.state,
        separators,
        numbers,
        words,
        owners,
        secondseparators,
        secondnumbers,
        secondwords,
        secondowners,
        poolnumbers,
        poolwords,
        poolowners,
        growth.steps as usize,
    );
    advanced(parameters, growth, grown)
}

// The record after a step, if the growth is accepted: one step more, or at the last one the new growth state.
fn advanced(parameters: Parameters, growth: GrowthRecord, grown: Grown) -> Recorded
    requires { growth.steps < parameters.pages }
    ensures { result ≡ advanced_by parameters growth grown }
{
    let answer = grown.answer;
    if !accepted(answer) {
        return Recorded { answer, growth };
    }
    let steps = growth.steps + 1;
    if steps == parameters.pages {
        return at_rest_after(grown);
    }
    let state = growth.state;
    let further = GrowthRecord {
        state,
        growing: true,
        steps,
    };
    Recorded {
        answer: Placed::On(0, 0),
        growth: further,
    }
}
