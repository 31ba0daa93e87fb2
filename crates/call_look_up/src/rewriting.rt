// The change of a position.
ghost use Rattle.calls.specs.Answers.{Leaves, unpooled, placed};
ghost use Rattle.calls.specs.Calls.{change_of};
ghost use Rattle.calls.specs.Stores.{change_stopped_of};
ghost use Rattle.placement.specs.Lent.{held};

use call_guard::{file_fits, guard, may_alter};
use calls::answers::{Placed, Refusal};
use hashing::{Geometry, Growth, Parameters};
use named_page::find;
use pages::position::Position;

// Writes one word. The owner stays.
pub fn change(
    parameters: Parameters,
    growth: Growth,
    separators: &[u8],
    numbers: &[u32],
    words: &mut [u64],
    owners: &[u8],
    caller: u8,
    number: u32,
    position: Position,
) -> Placed
    ensures { Leaves (change_of parameters growth (held separators.now numbers.now words.old owners.now) unpooled caller number position)
        (placed result) (held separators.now numbers.now words.new owners.now) unpooled }
{
    change_stopped(
        parameters,
        growth,
        separators,
        numbers,
        words,
        owners,
        caller,
        number,
        position,
        parameters.pages,
    )
}

// The same, stopped after so many page stores: one stores the page.
pub fn change_stopped(
    parameters: Parameters,
    growth: Growth,
    separators: &[u8],
    numbers: &[u32],
    words: &mut [u64],
    owners: &[u8],
    caller: u8,
    number: u32,
    position: Position,
    stores: u32,
) -> Placed
    ensures { Leaves (change_stopped_of parameters growth (held separators.now numbers.now words.old owners.now) unpooled caller number position stores)
        (placed result) (held separators.now numbers.now words.new owners.now) unpooled }
{
    let fits = file_fits(
        parameters,
        separators.len(),
        numbers.len(),
        words.len(),
        owners.len(),
    );
    if let Err(refusal) = guard(parameters, growth, fits) {
        return Placed::Refused(refusal, 0);
    }
    if !pages::position::number_valid(number) {
        return Placed::Refused(Refusal::BadNumber, 0);
    }
    if !pages::position::position_valid(position) {
        return Placed::Refused(Refusal::BadPosition, 0);
    }
    let geometry = Geometry { parameters, growth };
    let table = generator::first_multipliers(parameters.multiplier);
    let home = hashing::home(&table, geometry, number);
    let mut homes = [0u32; 32];
    let named = find(
        &table, geometry, separators, numbers, words, owners, number, home, &mut homes,
    );
    let page = named.page as u32;
    if !named.readable {
        return Placed::Refused(Refusal::Damaged(page), 0);
    }
    if !named.held {
        return Placed::Refused(Refusal::NotHeld, named.place);
    }
    if !may_alter(caller, named.owner) {
        return Placed::Refused(Refusal::NotOwner, named.place);
    }
    if stores == 0 {
        return Placed::On(page, named.place);
    }
    let item = named.item;
    words[item] = pages::position::pack(position);
    Placed::On(page, named.place)
}
