// The plan of a stretch over its own stars, applied where they fit.
ghost use Rattle.std.specs.Prelude.{◌≡◌, true, ◌+◌, ◌*◌, drop};
ghost use Rattle.hashing.specs.Limits.{valid_parameters};
ghost use Rattle.placement.specs.Lent.{held, before, after};
ghost use Rattle.removal_reach.specs.Stretch.{StretchReady, fitting, restretched};

use hashing::Parameters;

// Places the stars of `count` pages from page lo anew, `without` left out; the pool holds the homes of their items.
// The answer is whether nothing is carried past these pages. If something is, the file stays. The pool stays behind them.
pub fn replace_stretch(
    parameters: Parameters,
    separators: &mut [u8],
    numbers: &mut [u32],
    words: &mut [u64],
    owners: &mut [u8],
    pool: &mut [u32],
    waiting: &mut [u64],
    poolowners: &mut [u8],
    lo: usize,
    count: usize,
    without: u32,
) -> bool
    requires parameters_value { valid_parameters parameters ≡ true }
    requires stretch_ready { StretchReady parameters lo count (held separators.old numbers.old words.old owners.old) pool.old waiting.old poolowners.old }
    ensures value { result ≡ fitting parameters lo count without (before separators numbers words owners) pool.old }
    ensures owners_value { after separators numbers words owners ≡ restretched parameters lo count without (before separators numbers words owners) pool.old }
    ensures pool_unchanged { drop ((lo + count) * parameters.places) pool.new ≡ drop ((lo + count) * parameters.places) pool.old }
{
    let mut planned = [0u8; 1024];
    let left = page_plan::plan(
        parameters,
        numbers,
        pool,
        waiting,
        &mut planned,
        lo,
        count,
        without,
        0,
    );
    if left != 0 {
        return false;
    }
    plan_transfer::apply(
        separators,
        numbers,
        words,
        owners,
        pool,
        waiting,
        poolowners,
        &planned,
        parameters.places as usize,
        lo,
        count,
        0,
        0,
        0,
    );
    true
}
