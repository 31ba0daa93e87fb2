// The calls that write one star, stopped after so many page stores: document 02 (xii). A page is stored whole, and the separators after the last page.
ghost use Rattle.calls.specs.Answers.{Leaves, unpooled, placed};
ghost use Rattle.calls.specs.Stores.{enter_stopped_under, change_stopped_under, remove_stopped_under};
ghost use Rattle.placement.specs.Lent.{held, before, after};
ghost use Rattle.calls.specs.Lent.{pool_before, pool_after_lem};

use call_guard::{at_rest, file_fits, out_of_turn, turn_away};
use calls::answers::Placed;
use calls::records::GrowthRecord;
use hashing::Parameters;
use pages::position::Position;

// The highest changed page first. The answer is that of the entry.
pub fn enter_stopped(
    parameters: Parameters,
    growth: GrowthRecord,
    separators: &mut [u8],
    numbers: &mut [u32],
    words: &mut [u64],
    owners: &mut [u8],
    poolnumbers: &mut [u32],
    poolwords: &mut [u64],
    poolowners: &mut [u8],
    caller: u8,
    number: u32,
    position: Position,
    stores: u32,
) -> Placed
    ensures leaves { Leaves (enter_stopped_under parameters growth (before separators numbers words owners) (pool_before poolnumbers poolwords poolowners) caller number position stores)
        (placed result) (after separators numbers words owners) (pool_after_lem poolnumbers poolwords poolowners) }
{
    if !at_rest(growth) {
        return turn_away(
            parameters,
            growth,
            separators,
            numbers,
            words,
            owners,
            poolnumbers,
            poolwords,
            poolowners,
        );
    }
    call_enter::enter_stopped(
        parameters,
        growth.state,
        separators,
        numbers,
        words,
        owners,
        poolnumbers,
        poolwords,
        poolowners,
        caller,
        number,
        position,
        stores,
    )
}

// One store writes the page of the star.
pub fn change_stopped(
    parameters: Parameters,
    growth: GrowthRecord,
    separators: &[u8],
    numbers: &[u32],
    words: &mut [u64],
    owners: &[u8],
    caller: u8,
    number: u32,
    position: Position,
    stores: u32,
) -> Placed
    ensures leaves { Leaves (change_stopped_under parameters growth (held separators.now numbers.now words.old owners.now) unpooled caller number position stores)
        (placed result) (held separators.now numbers.now words.new owners.now) unpooled }
{
    if !at_rest(growth) {
        let fits = file_fits(
            parameters,
            separators.len(),
            numbers.len(),
            words.len(),
            owners.len(),
        );
        return Placed::Refused(out_of_turn(parameters, growth, fits), 0);
    }
    call_look_up::change_stopped(
        parameters,
        growth.state,
        separators,
        numbers,
        words,
        owners,
        caller,
        number,
        position,
        stores,
    )
}

// The lowest changed page first. The answer is that of the removal.
pub fn remove_stopped(
    parameters: Parameters,
    growth: GrowthRecord,
    separators: &mut [u8],
    numbers: &mut [u32],
    words: &mut [u64],
    owners: &mut [u8],
    poolnumbers: &mut [u32],
    poolwords: &mut [u64],
    poolowners: &mut [u8],
    caller: u8,
    number: u32,
    stores: u32,
) -> Placed
    ensures leaves { Leaves (remove_stopped_under parameters growth (before separators numbers words owners) (pool_before poolnumbers poolwords poolowners) caller number stores)
        (placed result) (after separators numbers words owners) (pool_after_lem poolnumbers poolwords poolowners) }
{
    if !at_rest(growth) {
        return turn_away(
            parameters,
            growth,
            separators,
            numbers,
            words,
            owners,
            poolnumbers,
            poolwords,
            poolowners,
        );
    }
    call_remove::remove_stopped(
        parameters,
        growth.state,
        separators,
        numbers,
        words,
        owners,
        poolnumbers,
        poolwords,
        poolowners,
        caller,
        number,
        stores,
    )
}
