// The entry of a star.
ghost use Rattle.std.specs.Prelude.{◌≡◌, true};
ghost use Rattle.pages.specs.Position.{valid_number};
ghost use Rattle.placement.specs.Ready.{Pooled};
ghost use Rattle.placement.specs.Rule.{star_with};
ghost use Rattle.calls.specs.Answers.{Leaves, cleared, placed};
ghost use Rattle.calls.specs.Shape.{Stores};
ghost use Rattle.calls.specs.Calls.{enter_of, cascade_of, named};
ghost use Rattle.calls.specs.Stores.{enter_stopped_of};
ghost use Rattle.call_enter.specs.Entries.{entry_on, entered_by, unless_cascading};
ghost use Rattle.calls.specs.Shape.{Admitted};
ghost use Rattle.placement.specs.Lent.{held, before, after};
ghost use Rattle.calls.specs.Lent.{pool_before, pool_after_lem};

use call_guard::{all_fit, guard};
use calls::answers::{Placed, Refusal};
use decision::Newcomer;
use hashing::{Geometry, Growth, Parameters};
use named_page::find_kept;
use outcome_answer::{entered_again, placed_from};
use pages::position::Position;

// The answer of an accepted entry is the page where the star now stands, its caller's. Entering a held star with its own position changes nothing.
pub fn enter(
    parameters: Parameters,
    growth: Growth,
    separators: &mut [u8],
    numbers: &mut [u32],
    words: &mut [u64],
    owners: &mut [u8],
    poolnumbers: &mut [u32],
    poolwords: &mut [u64],
    poolowners: &mut [u8],
    caller: u8,
    number: u32,
    position: Position,
) -> Placed
    ensures { Leaves (enter_of parameters growth (before separators numbers words owners) (pool_before poolnumbers poolwords poolowners) caller number position)
        (placed result) (after separators numbers words owners) (pool_after_lem poolnumbers poolwords poolowners) }
{
    enter_by(
        parameters,
        growth,
        false,
        separators,
        numbers,
        words,
        owners,
        poolnumbers,
        poolwords,
        poolowners,
        caller,
        number,
        position,
        parameters.pages,
    )
}

// The same, stopped after so many page stores: a page is stored whole, the highest that changes first, and the separators after the last.
pub fn enter_stopped(
    parameters: Parameters,
    growth: Growth,
    separators: &mut [u8],
    numbers: &mut [u32],
    words: &mut [u64],
    owners: &mut [u8],
    poolnumbers: &mut [u32],
    poolwords: &mut [u64],
    poolowners: &mut [u8],
    caller: u8,
    number: u32,
    position: Position,
    stores: u32,
) -> Placed
    ensures { Leaves (enter_stopped_of parameters growth (before separators numbers words owners) (pool_before poolnumbers poolwords poolowners) caller number position stores)
        (placed result) (after separators numbers words owners) (pool_after_lem poolnumbers poolwords poolowners) }
{
    enter_by(
        parameters,
        growth,
        false,
        separators,
        numbers,
        words,
        owners,
        poolnumbers,
        poolwords,
        poolowners,
        caller,
        number,
        position,
        stores,
    )
}

// The entry by a cascade: it reads the pages from the named one upward, one at a time, until none has a star to push on.
pub fn cascade(
    parameters: Parameters,
    growth: Growth,
    separators: &mut [u8],
    numbers: &mut [u32],
    words: &mut [u64],
    owners: &mut [u8],
    poolnumbers: &mut [u32],
    poolwords: &mut [u64],
    poolowners: &mut [u8],
    caller: u8,
    number: u32,
    position: Position,
) -> Placed
    ensures { Leaves (cascade_of parameters growth (before separators numbers words owners) (pool_before poolnumbers poolwords poolowners) caller number position)
        (placed result) (after separators numbers words owners) (pool_after_lem poolnumbers poolwords poolowners) }
{
    enter_by(
        parameters,
        growth,
        true,
        separators,
        numbers,
        words,
        owners,
        poolnumbers,
        poolwords,
        poolowners,
        caller,
        number,
        position,
        0,
    )
}

// An entry over its reach, stopped after so many page stores, or `cascading`.
fn enter_by(
    parameters: Parameters,
    growth: Growth,
    cascading: bool,
    separators: &mut [u8],
    numbers: &mut [u32],
    words: &mut [u64],
    owners: &mut [u8],
    poolnumbers: &mut [u32],
    poolwords: &mut [u64],
    poolowners: &mut [u8],
    caller: u8,
    number: u32,
    position: Position,
    stores: u32,
) -> Placed
    ensures { Leaves (unless_cascading cascading parameters (before separators numbers words owners) stores
        (entered_by cascading parameters growth (before separators numbers words owners) (pool_before poolnumbers poolwords poolowners) caller number position))
        (placed result) (after separators numbers words owners) (pool_after_lem poolnumbers poolwords poolowners) }
{
    let fits = all_fit(
        parameters,
        separators.len(),
        numbers.len(),
        words.len(),
        owners.len(),
        poolnumbers.len(),
        poolwords.len(),
        poolowners.len(),
    );
    if let Err(refusal) = guard(parameters, growth, fits) {
        return Placed::Refused(refusal, 0);
    }
    if !pages::position::number_valid(number) {
        return Placed::Refused(Refusal::BadNumber, 0);
    }
    if !pages::position::position_valid(position) {
        return Placed::Refused(Refusal::BadPosition, 0);
    }
    let word = pages::position::pack(position);
    let answer = enter_star(
        parameters,
        growth,
        cascading,
        separators,
        numbers,
        words,
        owners,
        poolnumbers,
        poolwords,
        poolowners,
        caller,
        number,
        word,
        stores,
    );
    plan_transfer::clear_used(poolnumbers, poolwords, poolowners);
    answer
}

// The named page first, then whether the star is held, then the reach or the pages of the cascade, which a held star's entry does not read.
fn enter_star(
    parameters: Parameters,
    growth: Growth,
    cascading: bool,
    separators: &mut [u8],
    numbers: &mut [u32],
    words: &mut [u64],
    owners: &mut [u8],
    poolnumbers: &mut [u32],
    poolwords: &mut [u64],
    poolowners: &mut [u8],
    caller: u8,
    number: u32,
    word: u64,
    stores: u32,
) -> Placed
    requires admitted { Admitted parameters growth (held separators.old numbers.old words.old owners.old) }
    requires pooled { Pooled parameters poolnumbers.old poolwords.old poolowners.old }
    requires number_value { valid_number number ≡ true }
    ensures { Stores (unless_cascading cascading parameters (before separators numbers words owners) stores
        (entry_on cascading parameters growth (before separators numbers words owners) (cleared (pool_before poolnumbers poolwords poolowners))
        (named parameters growth (before separators numbers words owners) number) (star_with number word caller)))
        (placed result) (after separators numbers words owners) }
{
    let geometry = Geometry { parameters, growth };
    let table = generator::first_multipliers(parameters.multiplier);
    let named = find_kept(
        &table,
        geometry,
        separators,
        numbers,
        words,
        owners,
        poolnumbers,
        number,
    );
    let page = named.page as u32;
    if !named.readable {
        return Placed::Refused(Refusal::Damaged(page), 0);
    }
    if named.held {
        return entered_again(page, named.place, named.word, word);
    }
    if cascading {
        return placed_from(
            entry_cascade::cascade(
                &table,
                geometry,
                separators,
                numbers,
                words,
                owners,
                poolnumbers,
                poolwords,
                poolowners,
                number,
                word,
                caller,
                named.home,
                named.page,
            ),
            named.place,
        );
    }
    let star = Newcomer {
        number,
        word,
        owner: caller,
        home: named.home,
        place: named.place,
        page: named.page,
    };
    placed_from(
        entry_reach::enter_star(
            &table,
            geometry,
            separators,
            numbers,
            words,
            owners,
            poolnumbers,
            poolwords,
            poolowners,
            star,
            stores as usize,
        ),
        named.place,
    )
}
