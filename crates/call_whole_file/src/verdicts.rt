// The check of a file.
ghost use Rattle.std.specs.Prelude.{◌≡◌};
ghost use Rattle.placement.specs.Lent.{held};
ghost use Rattle.calls.specs.Answers.{Leaves, checked};
ghost use Rattle.calls.specs.Calls.{check_of};
ghost use Rattle.call_whole_file.specs.Outcomes.{VerdictSmall, verdict_checked_lem};
ghost use Rattle.calls.specs.Lent.{pool_before, pool_after_lem};

use call_guard::{all_fit, guard};
use calls::answers::{Checked, Refusal};
use hashing::{Geometry, Growth, Parameters};
use rule_check::Verdict;

// The file is only read. A refusal of the file itself tells the lowest unsound page, or the first page and place that differ from the rule.
pub fn check(
    parameters: Parameters,
    growth: Growth,
    separators: &[u8],
    numbers: &[u32],
    words: &[u64],
    owners: &[u8],
    poolnumbers: &mut [u32],
    poolwords: &mut [u64],
    poolowners: &mut [u8],
) -> Checked
    ensures { Leaves (check_of parameters growth (held separators.now numbers.now words.now owners.now) (pool_before poolnumbers poolwords poolowners))
        (checked result) (held separators.now numbers.now words.now owners.now) (pool_after_lem poolnumbers poolwords poolowners) }
{
    let fits = all_fit(
        parameters,
        separators.len(),
        numbers.len(),
        words.len(),
        owners.len(),
        poolnumbers.len(),
        poolwords.len(),
        poolowners.len(),
    );
    if let Err(refusal) = guard(parameters, growth, fits) {
        return Checked::Refused(refusal, 0);
    }
    let table = generator::first_multipliers(parameters.multiplier);
    let verdict = rule_check::check_file(
        &table,
        Geometry { parameters, growth },
        separators,
        numbers,
        words,
        owners,
        poolnumbers,
        poolwords,
        poolowners,
    );
    plan_transfer::clear(poolnumbers, poolwords, poolowners);
    verdict_checked(verdict, parameters.places)
}

fn verdict_checked(verdict: Verdict, places: u32) -> Checked
    requires { VerdictSmall verdict }
    ensures { result ≡ verdict_checked_lem verdict places }
{
    match verdict {
        Verdict::Clean => Checked::Clean,
        Verdict::Differs { page, place } => {
            Checked::Refused(Refusal::Damaged(page as u32), place as u32)
        }
        Verdict::Unsound(page) => Checked::Refused(Refusal::Damaged(page as u32), places),
    }
}
