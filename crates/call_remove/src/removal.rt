// The removal of a star.
ghost use Rattle.std.specs.Prelude.{◌≡◌, true};
ghost use Rattle.pages.specs.Position.{valid_number};
ghost use Rattle.placement.specs.Ready.{Pooled};
ghost use Rattle.calls.specs.Answers.{Leaves, cleared, placed};
ghost use Rattle.calls.specs.Shape.{Stores};
ghost use Rattle.calls.specs.Calls.{remove_of, remove_on, named};
ghost use Rattle.calls.specs.Stores.{remove_stopped_of};
ghost use Rattle.calls.specs.Shape.{stopped};
ghost use Rattle.calls.specs.Shape.{Admitted};
ghost use Rattle.placement.specs.Lent.{held, before, after};
ghost use Rattle.calls.specs.Lent.{pool_before, pool_after_lem};

use call_guard::{all_fit, guard, may_alter};
use calls::answers::{Placed, Refusal};
use hashing::{Geometry, Growth, Parameters};
use named_page::find_kept;
use outcome_answer::placed_from;
use removal_reach::HeldStar;

// The answer of an accepted removal is the page where the star stood.
pub fn remove(
    parameters: Parameters,
    growth: Growth,
    separators: &mut [u8],
    numbers: &mut [u32],
    words: &mut [u64],
    owners: &mut [u8],
    poolnumbers: &mut [u32],
    poolwords: &mut [u64],
    poolowners: &mut [u8],
    caller: u8,
    number: u32,
) -> Placed
    ensures { Leaves (remove_of parameters growth (before separators numbers words owners) (pool_before poolnumbers poolwords poolowners) caller number)
        (placed result) (after separators numbers words owners) (pool_after_lem poolnumbers poolwords poolowners) }
{
    remove_stopped(
        parameters,
        growth,
        separators,
        numbers,
        words,
        owners,
        poolnumbers,
        poolwords,
        poolowners,
        caller,
        number,
        parameters.pages,
    )
}

// The same, stopped after so many page stores: a page is stored whole, the lowest that changes first, and the separators after the last.
pub fn remove_stopped(
    parameters: Parameters,
    growth: Growth,
    separators: &mut [u8],
    numbers: &mut [u32],
    words: &mut [u64],
    owners: &mut [u8],
    poolnumbers: &mut [u32],
    poolwords: &mut [u64],
    poolowners: &mut [u8],
    caller: u8,
    number: u32,
    stores: u32,
) -> Placed
    ensures { Leaves (remove_stopped_of parameters growth (before separators numbers words owners) (pool_before poolnumbers poolwords poolowners) caller number stores)
        (placed result) (after separators numbers words owners) (pool_after_lem poolnumbers poolwords poolowners) }
{
    let fits = all_fit(
        parameters,
        separators.len(),
        numbers.len(),
        words.len(),
        owners.len(),
        poolnumbers.len(),
        poolwords.len(),
        poolowners.len(),
    );
    if let Err(refusal) = guard(parameters, growth, fits) {
        return Placed::Refused(refusal, 0);
    }
    if !pages::position::number_valid(number) {
        return Placed::Refused(Refusal::BadNumber, 0);
    }
    let answer = remove_held(
        parameters,
        growth,
        separators,
        numbers,
        words,
        owners,
        poolnumbers,
        poolwords,
        poolowners,
        caller,
        number,
        stores,
    );
    plan_transfer::clear_used(poolnumbers, poolwords, poolowners);
    answer
}

// The named page first, then whether the star is held and the caller may remove it, then the reach.
fn remove_held(
    parameters: Parameters,
    growth: Growth,
    separators: &mut [u8],
    numbers: &mut [u32],
    words: &mut [u64],
    owners: &mut [u8],
    poolnumbers: &mut [u32],
    poolwords: &mut [u64],
    poolowners: &mut [u8],
    caller: u8,
    number: u32,
    stores: u32,
) -> Placed
    requires admitted { Admitted parameters growth (held separators.old numbers.old words.old owners.old) }
    requires pooled { Pooled parameters poolnumbers.old poolwords.old poolowners.old }
    requires number_value { valid_number number ≡ true }
    ensures { Stores (stopped true parameters (before separators numbers words owners) stores
        (remove_on parameters growth (before separators numbers words owners) (cleared (pool_before poolnumbers poolwords poolowners))
        (named parameters growth (before separators numbers words owners) number) caller number))
        (placed result) (after separators numbers words owners) }
{
    let geometry = Geometry { parameters, growth };
    let table = generator::first_multipliers(parameters.multiplier);
    let named = find_kept(
        &table,
        geometry,
        separators,
        numbers,
        words,
        owners,
        poolnumbers,
        number,
    );
    let page = named.page as u32;
    if !named.readable {
        return Placed::Refused(Refusal::Damaged(page), 0);
    }
    if !named.held {
        return Placed::Refused(Refusal::NotHeld, named.place);
    }
    if !may_alter(caller, named.owner) {
        return Placed::Refused(Refusal::NotOwner, named.place);
    }
    let star = HeldStar {
        number,
        home: named.home,
        page: named.page,
        place: named.place,
    };
    placed_from(
        removal_reach::remove_held(
            &table,
            geometry,
            separators,
            numbers,
            words,
            owners,
            poolnumbers,
            poolwords,
            poolowners,
            star,
            stores as usize,
        ),
        named.place,
    )
}
