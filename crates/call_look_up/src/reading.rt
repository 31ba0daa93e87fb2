// The look-up.
ghost use Rattle.std.specs.Prelude.{◌≡◌};
ghost use Rattle.placement.specs.Lent.{held};
ghost use Rattle.calls.specs.Answers.{unpooled, sought};
ghost use Rattle.calls.specs.Calls.{look_up_of};

use call_guard::{file_fits, guard};
use calls::answers::{Found, Refusal};
use hashing::{Geometry, Growth, Parameters};
use named_page::find;

// Reads the separators and the one page that they name.
pub fn look_up(
    parameters: Parameters,
    growth: Growth,
    separators: &[u8],
    numbers: &[u32],
    words: &[u64],
    owners: &[u8],
    number: u32,
) -> Found
    ensures { sought result ≡ (look_up_of parameters growth (held separators.now numbers.now words.now owners.now) unpooled number).answer }
{
    let fits = file_fits(
        parameters,
        separators.len(),
        numbers.len(),
        words.len(),
        owners.len(),
    );
    if let Err(refusal) = guard(parameters, growth, fits) {
        return Found::Refused(refusal, 0);
    }
    if !pages::position::number_valid(number) {
        return Found::Refused(Refusal::BadNumber, 0);
    }
    let geometry = Geometry { parameters, growth };
    let table = generator::first_multipliers(parameters.multiplier);
    let home = hashing::home(&table, geometry, number);
    let mut homes = [0u32; 32];
    let named = find(
        &table, geometry, separators, numbers, words, owners, number, home, &mut homes,
    );
    let page = named.page as u32;
    if !named.readable {
        return Found::Refused(Refusal::Damaged(page), 0);
    }
    if !named.held {
        return Found::Absent(page, named.place);
    }
    Found::At(page, named.place, pages::position::unpack(named.word))
}
