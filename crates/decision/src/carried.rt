// A decision carried out.
ghost use Rattle.std.specs.Prelude.{◌≡◌, true};
ghost use Rattle.hashing.specs.Limits.{valid_parameters};
ghost use Rattle.placement.specs.Shape.{Sized};
ghost use Rattle.placement.specs.Lent.{held, before, after};
ghost use Rattle.placement.specs.Ready.{Pooled};
ghost use Rattle.calls.specs.Shape.{stopped_file};
ghost use Rattle.decision.specs.Carried.{newcomer, carried_out, Feasible};

use crate::chosen::{Decision, Newcomer};
use crate::edits::{put, take};
use crate::stretch::store_stretch;
use hashing::Parameters;

// Stores at most `limit` pages of what was decided, the lowest changed page first if `upward`, else the highest; the separators only if
// every changed page is stored.
pub fn carry_out(
    parameters: Parameters,
    separators: &mut [u8],
    numbers: &mut [u32],
    words: &mut [u64],
    owners: &mut [u8],
    pool: &mut [u32],
    waiting: &mut [u64],
    poolowners: &mut [u8],
    planned: &[u8],
    decision: Decision,
    star: Newcomer,
    limit: usize,
    upward: bool,
)
    requires parameters_value { valid_parameters parameters ≡ true }
    requires sized { Sized parameters.places parameters.pages (held separators.old numbers.old words.old owners.old) }
    requires pooled { Pooled parameters pool.old waiting.old poolowners.old }
    requires feasible { Feasible parameters (held separators.old numbers.old words.old owners.old) star.number planned.now decision }
    ensures { after separators numbers words owners ≡ stopped_file upward parameters (before separators numbers words owners)
        (carried_out parameters.places (newcomer star) pool.old planned.now (before separators numbers words owners) decision) limit }
{
    let places = parameters.places as usize;
    match decision {
        Decision::Unsound(_) => {}
        Decision::Overflows => {}
        Decision::Put(page, place) => {
            put(numbers, words, owners, places, page, place, star, limit);
        }
        Decision::Take(page, place) => {
            take(numbers, words, owners, places, page, place, limit);
        }
        Decision::Planned(lo, count, _) => {
            store_stretch(
                parameters, separators, numbers, words, owners, pool, waiting, poolowners, planned,
                lo, count, star, limit, upward,
            );
        }
    }
}
