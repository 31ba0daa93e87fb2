// The removal of a star where it was found: decided, then carried out.
ghost use Rattle.std.specs.Prelude.{◌≡◌, true};
ghost use Rattle.placement.specs.Lent.{held, before, after};
ghost use Rattle.placement.specs.Ready.{Pooled};
ghost use Rattle.reach.specs.Known.{Known};
ghost use Rattle.calls.specs.Shape.{stopped_file};
ghost use Rattle.removal_reach.specs.Removal.{Removes, removal_answer, removal_file};

use crate::removal::decide_removal;
use crate::star::HeldStar;
use decision::{Decision, Newcomer, carry_out, outcome_of};
use hashing::Geometry;
use page_plan::Outcome;

// The removal of a star that its named page holds at this place, stopped after `limit` page stores. Where its home page's separator is
// 2^k − 1 that page is the named one and the whole reach, and its other stars stay.
pub fn remove_held(
    table: &[u32; 90],
    geometry: Geometry,
    separators: &mut [u8],
    numbers: &mut [u32],
    words: &mut [u64],
    owners: &mut [u8],
    pool: &mut [u32],
    waiting: &mut [u64],
    poolowners: &mut [u8],
    star: HeldStar,
    limit: usize,
) -> Outcome
    requires removes { Removes geometry table.now (held separators.old numbers.old words.old owners.old) star }
    requires pooled { Pooled geometry.parameters pool.old waiting.old poolowners.old }
    requires known { Known geometry.parameters geometry.growth (held separators.old numbers.old words.old owners.old) pool.old star.page }
    ensures value { result ≡ removal_answer geometry.parameters geometry.growth (before separators numbers words owners) star.number star.page }
    ensures owners_value { after separators numbers words owners ≡ stopped_file true geometry.parameters (before separators numbers words owners)
        (removal_file geometry.parameters geometry.growth (before separators numbers words owners) star.number) limit }
{
    let parameters = geometry.parameters;
    let nobody = Newcomer {
        number: 0,
        word: 0,
        owner: 0,
        home: 0,
        place: 0,
        page: 0,
    };
    let first = star.home as usize;
    if separators[first] == placement::top_of(parameters) {
        let none = [0u8; 1];
        let place = star.place as usize;
        carry_out(
            parameters,
            separators,
            numbers,
            words,
            owners,
            pool,
            waiting,
            poolowners,
            &none,
            Decision::Take(star.page, place),
            nobody,
            limit,
            true,
        );
        return Outcome::On(star.page);
    }
    let mut planned = [0u8; 1024];
    let decision = decide_removal(
        table,
        geometry,
        separators,
        numbers,
        words,
        owners,
        pool,
        waiting,
        &mut planned,
        star,
    );
    carry_out(
        parameters, separators, numbers, words, owners, pool, waiting, poolowners, &planned,
        decision, nobody, limit, true,
    );
    outcome_of(decision)
}
