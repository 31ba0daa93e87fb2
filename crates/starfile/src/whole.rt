// The growth that is done in steps, as a whole: its answer and growth state, and one page of the file that it leaves. The file is only read.
ghost use Rattle.std.specs.Prelude.{◌≡◌, ◌*◌, ◌<◌, length};
ghost use Rattle.placement.specs.Shape.{Sized};
ghost use Rattle.placement.specs.Lent.{held, before, after};
ghost use Rattle.placement.specs.Ready.{Pooled};
ghost use Rattle.calls.specs.Shape.{Admitted};
ghost use Rattle.starfile.specs.Steps.{GrowsAs, StepsAs, accepted_by};

use call_whole_file::{Step, step_of};
use calls::answers::{Grown, Placed};
use hashing::{Geometry, Growth, Parameters};
use outcome_answer::{grown_by, unmoved};

// What the growth would answer and leave as growth state. The pool is scratch.
pub fn plan_whole(
    parameters: Parameters,
    growth: Growth,
    separators: &[u8],
    numbers: &[u32],
    words: &[u64],
    owners: &[u8],
    poolnumbers: &mut [u32],
    poolwords: &mut [u64],
) -> Grown
    requires admitted { Admitted parameters growth (held separators.now numbers.now words.now owners.now) }
    requires poolnumbers_len { length poolnumbers.old ≡ parameters.pages * parameters.places }
    requires poolwords_len { length poolwords.old ≡ parameters.pages * parameters.places }
    ensures { GrowsAs parameters growth (held separators.now numbers.now words.now owners.now) result }
{
    let geometry = Geometry { parameters, growth };
    let step = step_of(geometry, false);
    match step {
        Step::Not(refusal) => unmoved(growth, refusal),
        Step::To(next, page) => {
            let table = generator::first_multipliers(parameters.multiplier);
            let outcome = growth_plan::accept_growth(
                &table,
                geometry,
                separators,
                numbers,
                words,
                owners,
                poolnumbers,
                poolwords,
                page as usize,
            );
            grown_by(outcome, growth, next)
        }
    }
}

// The same, and if the growth is accepted its page `step` in the second set.
pub fn write_page(
    parameters: Parameters,
    growth: Growth,
    separators: &[u8],
    numbers: &[u32],
    words: &[u64],
    owners: &[u8],
    secondseparators: &mut [u8],
    secondnumbers: &mut [u32],
    secondwords: &mut [u64],
    secondowners: &mut [u8],
    poolnumbers: &mut [u32],
    poolwords: &mut [u64],
    poolowners: &mut [u8],
    step: usize,
) -> Grown
    requires admitted { Admitted parameters growth (held separators.now numbers.now words.now owners.now) }
    requires sized { Sized parameters.places parameters.pages (held secondseparators.old secondnumbers.old secondwords.old secondowners.old) }
    requires pooled { Pooled parameters poolnumbers.old poolwords.old poolowners.old }
    requires step_lt_pages { step < parameters.pages }
    ensures grows_as { GrowsAs parameters growth (held separators.now numbers.now words.now owners.now) result }
    ensures steps_as { StepsAs parameters growth (held separators.now numbers.now words.now owners.now)
        (before secondseparators secondnumbers secondwords secondowners) step (after secondseparators secondnumbers secondwords secondowners) }
{
    let geometry = Geometry { parameters, growth };
    let way = step_of(geometry, false);
    match way {
        Step::Not(refusal) => unmoved(growth, refusal),
        Step::To(next, page) => {
            let table = generator::first_multipliers(parameters.multiplier);
            let outcome = growth_plan::step_page(
                &table,
                geometry,
                separators,
                numbers,
                words,
                owners,
                secondseparators,
                secondnumbers,
                secondwords,
                secondowners,
                poolnumbers,
                poolwords,
                poolowners,
                step,
                page as usize,
            );
            grown_by(outcome, growth, next)
        }
    }
}

pub fn accepted(answer: Placed) -> bool
    ensures { result ≡ accepted_by answer }
{
    match answer {
        Placed::On(_, _) => true,
        Placed::Refused(_, _) => false,
    }
}
