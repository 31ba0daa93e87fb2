// The calls that read the file: between the steps of a growth they answer from the old file.
ghost use Rattle.std.specs.Prelude.{◌≡◌};
ghost use Rattle.placement.specs.Lent.{held};
ghost use Rattle.calls.specs.Answers.{Leaves, unpooled, sought, due_said, checked};
ghost use Rattle.calls.specs.Records.{look_up_under, due_under, check_under};
ghost use Rattle.calls.specs.Lent.{pool_before, pool_after_lem};

use call_guard::steps_valid;
use calls::answers::{Checked, Due, Found, Refusal};
use calls::records::GrowthRecord;
use hashing::Parameters;

// Reads the separators and the one page that they name.
pub fn look_up(
    parameters: Parameters,
    growth: GrowthRecord,
    separators: &[u8],
    numbers: &[u32],
    words: &[u64],
    owners: &[u8],
    number: u32,
) -> Found
    ensures answer { sought result ≡ (look_up_under parameters growth (held separators.now numbers.now words.now owners.now) unpooled number).answer }
{
    if !steps_valid(parameters, growth) {
        return Found::Refused(Refusal::BadParameters, 0);
    }
    call_look_up::look_up(
        parameters,
        growth.state,
        separators,
        numbers,
        words,
        owners,
        number,
    )
}

pub fn due(
    parameters: Parameters,
    growth: GrowthRecord,
    separators: &[u8],
    numbers: &[u32],
    words: &[u64],
    owners: &[u8],
) -> Due
    ensures answer { due_said result ≡ (due_under parameters growth (held separators.now numbers.now words.now owners.now) unpooled).answer }
{
    if !steps_valid(parameters, growth) {
        return Due::Refused(Refusal::BadParameters);
    }
    call_due::due(parameters, growth.state, separators, numbers, words, owners)
}

// The file is only read. A refusal of the file itself tells the lowest unsound page, or the first page and place that differ from the rule.
pub fn check(
    parameters: Parameters,
    growth: GrowthRecord,
    separators: &[u8],
    numbers: &[u32],
    words: &[u64],
    owners: &[u8],
    poolnumbers: &mut [u32],
    poolwords: &mut [u64],
    poolowners: &mut [u8],
) -> Checked
    ensures leaves { Leaves (check_under parameters growth (held separators.now numbers.now words.now owners.now) (pool_before poolnumbers poolwords poolowners))
        (checked result) (held separators.now numbers.now words.now owners.now) (pool_after_lem poolnumbers poolwords poolowners) }
{
    if !steps_valid(parameters, growth) {
        return Checked::Refused(Refusal::BadParameters, 0);
    }
    call_whole_file::check(
        parameters,
        growth.state,
        separators,
        numbers,
        words,
        owners,
        poolnumbers,
        poolwords,
        poolowners,
    )
}
