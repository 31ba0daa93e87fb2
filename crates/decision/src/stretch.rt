// A planned stretch stored from the pool.
ghost use Rattle.std.specs.Prelude.{◌≡◌, true, ◌+◌, ◌≤◌, length};
ghost use Rattle.hashing.specs.Limits.{valid_parameters};
ghost use Rattle.placement.specs.Shape.{Sized};
ghost use Rattle.placement.specs.Lent.{held, before, after};
ghost use Rattle.placement.specs.Ready.{Pooled};
ghost use Rattle.page_plan.proofs.Applying.{applied};
ghost use Rattle.calls.specs.Shape.{stopped_file};

use crate::chosen::Newcomer;
use hashing::Parameters;

// The pool has the planned sources of the stretch's places, and `planned` its separators.
pub fn store_stretch(
    parameters: Parameters,
    separators: &mut [u8],
    numbers: &mut [u32],
    words: &mut [u64],
    owners: &mut [u8],
    pool: &mut [u32],
    waiting: &mut [u64],
    poolowners: &mut [u8],
    planned: &[u8],
    lo: usize,
    count: usize,
    star: Newcomer,
    limit: usize,
    upward: bool,
)
    requires parameters_value { valid_parameters parameters ≡ true }
    requires sized { Sized parameters.places parameters.pages (held separators.old numbers.old words.old owners.old) }
    requires pooled { Pooled parameters pool.old waiting.old poolowners.old }
    requires count_bound { (lo + count ≤ parameters.pages) × (lo + count ≤ length planned.now) }
    ensures { after separators numbers words owners ≡ stopped_file upward parameters (before separators numbers words owners)
        (applied parameters.places lo count star.number star.word star.owner pool.old planned.now (before separators numbers words owners)) limit }
{
    let places = parameters.places as usize;
    plan_transfer::fetch(
        numbers,
        words,
        owners,
        pool,
        waiting,
        poolowners,
        lo * places,
        count * places,
        star.number,
        star.word,
        star.owner,
    );
    page_store::store(
        separators, numbers, words, owners, pool, waiting, poolowners, planned, places, lo, count,
        limit, upward,
    );
}
