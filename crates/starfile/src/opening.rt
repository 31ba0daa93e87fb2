// A growth opened into a second set of pages: document 02 (xiii), "opening is step 0".
ghost use Rattle.std.specs.Prelude.{◌≡◌, ◌&&◌, ◌*◌, length};
ghost use Rattle.placement.specs.Shape.{Sized};
ghost use Rattle.placement.specs.Lent.{held, before, after};
ghost use Rattle.calls.specs.Answers.{Pool};
ghost use Rattle.calls.specs.Calls.{file_lengths, pool_lengths};
ghost use Rattle.calls.specs.Shape.{Admitted};
ghost use Rattle.calls.specs.Records.{LeavesStep, open_under};
ghost use Rattle.starfile.specs.Steps.{open_admitted, StoresStep};
ghost use Rattle.calls.specs.Lent.{pool_before, pool_after_lem};

use crate::whole::{accepted, plan_whole};
use call_guard::{admit, all_fit, file_fits};
use calls::answers::{Placed, Refusal};
use calls::records::{GrowthRecord, Recorded};
use hashing::Parameters;

// The file is only read. An accepted opening leaves every page of the second set empty.
pub fn open_growth(
    parameters: Parameters,
    growth: GrowthRecord,
    separators: &[u8],
    numbers: &[u32],
    words: &[u64],
    owners: &[u8],
    secondseparators: &mut [u8],
    secondnumbers: &mut [u32],
    secondwords: &mut [u64],
    secondowners: &mut [u8],
    poolnumbers: &mut [u32],
    poolwords: &mut [u64],
    poolowners: &mut [u8],
) -> Recorded
    ensures leaves { LeavesStep (open_under parameters growth (held separators.now numbers.now words.now owners.now)
        (before secondseparators secondnumbers secondwords secondowners) (pool_before poolnumbers poolwords poolowners))
        result (after secondseparators secondnumbers secondwords secondowners) (pool_after_lem poolnumbers poolwords poolowners) }
{
    let fits = both_fit(
        parameters,
        separators.len(),
        numbers.len(),
        words.len(),
        owners.len(),
        secondseparators.len(),
        secondnumbers.len(),
        secondwords.len(),
        secondowners.len(),
        poolnumbers.len(),
        poolwords.len(),
        poolowners.len(),
    );
    if let Err(refusal) = admit(parameters, growth, fits) {
        return Recorded {
            answer: Placed::Refused(refusal, 0),
            growth,
        };
    }
    let opened = open_second(
        parameters,
        growth,
        separators,
        numbers,
        words,
        owners,
        secondseparators,
        secondnumbers,
        secondwords,
        secondowners,
        poolnumbers,
        poolwords,
    );
    plan_transfer::clear(poolnumbers, poolwords, poolowners);
    opened
}

// The file, the second set and the pool.
pub fn both_fit(
    parameters: Parameters,
    separators: usize,
    numbers: usize,
    words: usize,
    owners: usize,
    secondseparators: usize,
    secondnumbers: usize,
    secondwords: usize,
    secondowners: usize,
    poolnumbers: usize,
    poolwords: usize,
    poolowners: usize,
) -> bool
    ensures { result ≡ (file_lengths parameters separators numbers words owners
        && (file_lengths parameters secondseparators secondnumbers secondwords secondowners && pool_lengths parameters poolnumbers poolwords poolowners)) }
{
    if !file_fits(parameters, separators, numbers, words, owners) {
        return false;
    }
    all_fit(
        parameters,
        secondseparators,
        secondnumbers,
        secondwords,
        secondowners,
        poolnumbers,
        poolwords,
        poolowners,
    )
}

// 16 if one is open already, then what refuses the growth. The pool is scratch.
fn open_second(
    parameters: Parameters,
    growth: GrowthRecord,
    separators: &[u8],
    numbers: &[u32],
    words: &[u64],
    owners: &[u8],
    secondseparators: &mut [u8],
    secondnumbers: &mut [u32],
    secondwords: &mut [u64],
    secondowners: &mut [u8],
    poolnumbers: &mut [u32],
    poolwords: &mut [u64],
) -> Recorded
    requires admitted { Admitted parameters growth.state (held separators.now numbers.now words.now owners.now) }
    requires sized { Sized parameters.places parameters.pages (held secondseparators.old secondnumbers.old secondwords.old secondowners.old) }
    requires poolnumbers_len { length poolnumbers.old ≡ parameters.pages * parameters.places }
    requires poolwords_len { length poolwords.old ≡ parameters.pages * parameters.places }
    ensures { (pool : Pool) → StoresStep (open_admitted parameters growth (held separators.now numbers.now words.now owners.now)
        (before secondseparators secondnumbers secondwords secondowners) pool) result (after secondseparators secondnumbers secondwords secondowners) }
{
    if growth.growing {
        return Recorded {
            answer: Placed::Refused(Refusal::OutOfTurn, 0),
            growth,
        };
    }
    let grown = plan_whole(
        parameters,
        growth.state,
        separators,
        numbers,
        words,
        owners,
        poolnumbers,
        poolwords,
    );
    let answer = grown.answer;
    if !accepted(answer) {
        return Recorded { answer, growth };
    }
    call_make::empty(
        parameters,
        secondseparators,
        secondnumbers,
        secondwords,
        secondowners,
    );
    let state = growth.state;
    let opened = GrowthRecord {
        state,
        growing: true,
        steps: 0,
    };
    Recorded {
        answer: Placed::On(0, 0),
        growth: opened,
    }
}
