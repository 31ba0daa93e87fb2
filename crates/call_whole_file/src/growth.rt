// Growth by one page, and giving a page back.
ghost use Rattle.std.specs.Prelude.{◌≡◌, true};
ghost use Rattle.hashing.specs.Limits.{valid_parameters, valid_growth};
ghost use Rattle.placement.specs.Ready.{Pooled};
ghost use Rattle.calls.specs.Answers.{Leaves, cleared, placed};
ghost use Rattle.calls.specs.Shape.{Stores};
ghost use Rattle.calls.specs.Calls.{grow_of, shrink_of};
ghost use Rattle.call_whole_file.specs.Outcomes.{step_of, regrow_on, regrow_of};
ghost use Rattle.calls.specs.Shape.{Admitted};
ghost use Rattle.placement.specs.Lent.{held, before, after};
ghost use Rattle.calls.specs.Lent.{pool_before, pool_after_lem};

use call_guard::{all_fit, guard};
use calls::answers::{Grown, Refusal};
use hashing::{Geometry, Growth, Parameters};
use outcome_answer::{grown_by, unmoved};

// The answer of an accepted growth is the new page, with the new growth state.
pub fn grow(
    parameters: Parameters,
    growth: Growth,
    separators: &mut [u8],
    numbers: &mut [u32],
    words: &mut [u64],
    owners: &mut [u8],
    poolnumbers: &mut [u32],
    poolwords: &mut [u64],
    poolowners: &mut [u8],
) -> Grown
    ensures leaves { Leaves (grow_of parameters growth (before separators numbers words owners) (pool_before poolnumbers poolwords poolowners))
        (placed result.answer) (after separators numbers words owners) (pool_after_lem poolnumbers poolwords poolowners) }
    ensures growth_value { result.growth ≡ (grow_of parameters growth (before separators numbers words owners) (pool_before poolnumbers poolwords poolowners)).growth }
{
    regrow(
        parameters,
        growth,
        false,
        separators,
        numbers,
        words,
        owners,
        poolnumbers,
        poolwords,
        poolowners,
    )
}

// The answer of an accepted shrinking is the page given back, with the growth state before the latest growth.
pub fn shrink(
    parameters: Parameters,
    growth: Growth,
    separators: &mut [u8],
    numbers: &mut [u32],
    words: &mut [u64],
    owners: &mut [u8],
    poolnumbers: &mut [u32],
    poolwords: &mut [u64],
    poolowners: &mut [u8],
) -> Grown
    ensures leaves { Leaves (shrink_of parameters growth (before separators numbers words owners) (pool_before poolnumbers poolwords poolowners))
        (placed result.answer) (after separators numbers words owners) (pool_after_lem poolnumbers poolwords poolowners) }
    ensures growth_value { result.growth ≡ (shrink_of parameters growth (before separators numbers words owners) (pool_before poolnumbers poolwords poolowners)).growth }
{
    regrow(
        parameters,
        growth,
        true,
        separators,
        numbers,
        words,
        owners,
        poolnumbers,
        poolwords,
        poolowners,
    )
}

// A growth, or `back` from the latest one.
fn regrow(
    parameters: Parameters,
    growth: Growth,
    back: bool,
    separators: &mut [u8],
    numbers: &mut [u32],
    words: &mut [u64],
    owners: &mut [u8],
    poolnumbers: &mut [u32],
    poolwords: &mut [u64],
    poolowners: &mut [u8],
) -> Grown
    ensures leaves { Leaves (regrow_of back parameters growth (before separators numbers words owners) (pool_before poolnumbers poolwords poolowners))
        (placed result.answer) (after separators numbers words owners) (pool_after_lem poolnumbers poolwords poolowners) }
    ensures growth_value { result.growth ≡ (regrow_of back parameters growth (before separators numbers words owners) (pool_before poolnumbers poolwords poolowners)).growth }
{
    let fits = all_fit(
        parameters,
        separators.len(),
        numbers.len(),
        words.len(),
        owners.len(),
        poolnumbers.len(),
        poolwords.len(),
        poolowners.len(),
    );
    if let Err(refusal) = guard(parameters, growth, fits) {
        return unmoved(growth, refusal);
    }
    let answer = regrow_file(
        parameters,
        growth,
        back,
        separators,
        numbers,
        words,
        owners,
        poolnumbers,
        poolwords,
        poolowners,
    );
    plan_transfer::clear(poolnumbers, poolwords, poolowners);
    answer
}

// The growth state to go to, and the page that comes or goes; or why there is none.
#[derive(Clone, Copy)]
pub enum Step {
    To(Growth, u32),
    Not(Refusal),
}

pub fn step_of(geometry: Geometry, back: bool) -> Step
    requires parameters_value { valid_parameters geometry.parameters ≡ true }
    requires growth_value { valid_growth geometry.parameters geometry.growth ≡ true }
    ensures { result ≡ step_of back geometry.parameters geometry.growth }
{
    let highest = geometry.highest_address();
    if back {
        if hashing::ungrown(geometry.growth) {
            return Step::Not(Refusal::Ungrown);
        }
        return Step::To(hashing::shrunk(geometry), highest);
    }
    let page = highest + 1;
    if page == geometry.parameters.pages {
        return Step::Not(Refusal::Full);
    }
    Step::To(hashing::grown(geometry), page)
}

fn regrow_file(
    parameters: Parameters,
    growth: Growth,
    back: bool,
    separators: &mut [u8],
    numbers: &mut [u32],
    words: &mut [u64],
    owners: &mut [u8],
    poolnumbers: &mut [u32],
    poolwords: &mut [u64],
    poolowners: &mut [u8],
) -> Grown
    requires admitted { Admitted parameters growth (held separators.old numbers.old words.old owners.old) }
    requires pooled { Pooled parameters poolnumbers.old poolwords.old poolowners.old }
    ensures stores { Stores (regrow_on back parameters growth (before separators numbers words owners) (cleared (pool_before poolnumbers poolwords poolowners)))
        (placed result.answer) (after separators numbers words owners) }
    ensures growth_value { result.growth ≡ (regrow_on back parameters growth (before separators numbers words owners) (cleared (pool_before poolnumbers poolwords poolowners))).growth }
{
    let geometry = Geometry { parameters, growth };
    let step = step_of(geometry, back);
    match step {
        Step::Not(refusal) => unmoved(growth, refusal),
        Step::To(next, page) => {
            let table = generator::first_multipliers(parameters.multiplier);
            let outcome = growth_plan::regrow(
                &table,
                geometry,
                back,
                separators,
                numbers,
                words,
                owners,
                poolnumbers,
                poolwords,
                poolowners,
                page as usize,
            );
            grown_by(outcome, growth, next)
        }
    }
}
