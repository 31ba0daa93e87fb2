// The calls that write one star: each is refused while a growth is open.
ghost use Rattle.calls.specs.Answers.{Leaves, unpooled, placed};
ghost use Rattle.calls.specs.Records.{enter_under, cascade_under, change_under, remove_under};
ghost use Rattle.placement.specs.Lent.{held, before, after};
ghost use Rattle.calls.specs.Lent.{pool_before, pool_after_lem};

use call_guard::{at_rest, file_fits, out_of_turn, turn_away};
use calls::answers::Placed;
use calls::records::GrowthRecord;
use hashing::Parameters;
use pages::position::Position;

// The answer of an accepted entry is the page where the star now stands, its caller's. Entering a held star with its own position changes nothing.
pub fn enter(
    parameters: Parameters,
    growth: GrowthRecord,
    separators: &mut [u8],
    numbers: &mut [u32],
    words: &mut [u64],
    owners: &mut [u8],
    poolnumbers: &mut [u32],
    poolwords: &mut [u64],
    poolowners: &mut [u8],
    caller: u8,
    number: u32,
    position: Position,
) -> Placed
    ensures leaves { Leaves (enter_under parameters growth (before separators numbers words owners) (pool_before poolnumbers poolwords poolowners) caller number position)
        (placed result) (after separators numbers words owners) (pool_after_lem poolnumbers poolwords poolowners) }
{
    if !at_rest(growth) {
        return turn_away(
            parameters,
            growth,
            separators,
            numbers,
            words,
            owners,
            poolnumbers,
            poolwords,
            poolowners,
        );
    }
    call_enter::enter(
        parameters,
        growth.state,
        separators,
        numbers,
        words,
        owners,
        poolnumbers,
        poolwords,
        poolowners,
        caller,
        number,
        position,
    )
}

// The same by a cascade: it reads the pages from the named one upward, one at a time, until none has a star to push on.
pub fn cascade(
    parameters: Parameters,
    growth: GrowthRecord,
    separators: &mut [u8],
    numbers: &mut [u32],
    words: &mut [u64],
    owners: &mut [u8],
    poolnumbers: &mut [u32],
    poolwords: &mut [u64],
    poolowners: &mut [u8],
    caller: u8,
    number: u32,
    position: Position,
) -> Placed
    ensures leaves { Leaves (cascade_under parameters growth (before separators numbers words owners) (pool_before poolnumbers poolwords poolowners) caller number position)
        (placed result) (after separators numbers words owners) (pool_after_lem poolnumbers poolwords poolowners) }
{
    if !at_rest(growth) {
        return turn_away(
            parameters,
            growth,
            separators,
            numbers,
            words,
            owners,
            poolnumbers,
            poolwords,
            poolowners,
        );
    }
    call_enter::cascade(
        parameters,
        growth.state,
        separators,
        numbers,
        words,
        owners,
        poolnumbers,
        poolwords,
        poolowners,
        caller,
        number,
        position,
    )
}

// Writes one word. The owner stays.
pub fn change(
    parameters: Parameters,
    growth: GrowthRecord,
    separators: &[u8],
    numbers: &[u32],
    words: &mut [u64],
    owners: &[u8],
    caller: u8,
    number: u32,
    position: Position,
) -> Placed
    ensures leaves { Leaves (change_under parameters growth (held separators.now numbers.now words.old owners.now) unpooled caller number position)
        (placed result) (held separators.now numbers.now words.new owners.now) unpooled }
{
    if !at_rest(growth) {
        let fits = file_fits(
            parameters,
            separators.len(),
            numbers.len(),
            words.len(),
            owners.len(),
        );
        return Placed::Refused(out_of_turn(parameters, growth, fits), 0);
    }
    call_look_up::change(
        parameters,
        growth.state,
        separators,
        numbers,
        words,
        owners,
        caller,
        number,
        position,
    )
}

// The answer of an accepted removal is the page where the star stood.
pub fn remove(
    parameters: Parameters,
    growth: GrowthRecord,
    separators: &mut [u8],
    numbers: &mut [u32],
    words: &mut [u64],
    owners: &mut [u8],
    poolnumbers: &mut [u32],
    poolwords: &mut [u64],
    poolowners: &mut [u8],
    caller: u8,
    number: u32,
) -> Placed
    ensures leaves { Leaves (remove_under parameters growth (before separators numbers words owners) (pool_before poolnumbers poolwords poolowners) caller number)
        (placed result) (after separators numbers words owners) (pool_after_lem poolnumbers poolwords poolowners) }
{
    if !at_rest(growth) {
        return turn_away(
            parameters,
            growth,
            separators,
            numbers,
            words,
            owners,
            poolnumbers,
            poolwords,
            poolowners,
        );
    }
    call_remove::remove(
        parameters,
        growth.state,
        separators,
        numbers,
        words,
        owners,
        poolnumbers,
        poolwords,
        poolowners,
        caller,
        number,
    )
}
