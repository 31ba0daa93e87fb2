// The old file's pages tested, its stars planned, and the new file written to the second set.
ghost use Rattle.std.specs.Prelude.{◌≡◌, true, map, ◌*◌, ◌^◌, ◌≤◌, ◌<◌, length, take};
ghost use Rattle.plan_transfer.specs.Sources.{named_item};
ghost use Rattle.generator.specs.Shape.{first_multipliers_lem};
ghost use Rattle.hashing.specs.Geometry.{multiplier_of};
ghost use Rattle.placement.specs.Hash.{lent};
ghost use Rattle.placement.specs.Lent.{held, before, after};
ghost use Rattle.placement.specs.Ready.{Ready};
ghost use Rattle.page_separator.specs.Lists.{all_below};
ghost use Rattle.page_plan.specs.declared.outcome.Outcome.TheVariants.{Unsound};
ghost use Rattle.carrying.specs.Carried.{PlacesSecond, carry_answer, carry_file};

use crate::stars::plan_all;
use hashing::Geometry;
use page_plan::Outcome;
use plan_transfer::{number_named, owner_named, word_named};

// What the sources in the pool name of the old file. One loop for the three lists: a source is read once, and tested once.
fn fill_second(
    oldnumbers: &[u32],
    oldwords: &[u64],
    oldowners: &[u8],
    secondnumbers: &mut [u32],
    secondwords: &mut [u64],
    secondowners: &mut [u8],
    pool: &[u32],
)
    requires secondnumbers_len { length secondnumbers.old ≡ length pool.now }
    requires secondwords_len { length secondwords.old ≡ length pool.now }
    requires secondowners_len { length secondowners.old ≡ length pool.now }
    ensures secondnumbers_after { secondnumbers.new ≡ map (named_item oldnumbers.now 0) pool.now }
    ensures secondwords_after { secondwords.new ≡ map (named_item oldwords.now 0) pool.now }
    ensures secondowners_after { secondowners.new ≡ map (named_item oldowners.now 0) pool.now }
{
    for (i, &source) in pool.iter().enumerate() {
        secondnumbers[i] = number_named(oldnumbers, source, 0);
        secondwords[i] = word_named(oldwords, source, 0);
        secondowners[i] = owner_named(oldowners, source, 0);
    }
}

// The same, with the planned separators.
fn write_second(
    oldnumbers: &[u32],
    oldwords: &[u64],
    oldowners: &[u8],
    secondseparators: &mut [u8],
    secondnumbers: &mut [u32],
    secondwords: &mut [u64],
    secondowners: &mut [u8],
    pool: &[u32],
    planned: &[u8; 1024],
)
    requires secondseparators_in_bounds { length secondseparators.old ≤ length planned.now }
    requires secondnumbers_len { length secondnumbers.old ≡ length pool.now }
    requires secondwords_len { length secondwords.old ≡ length pool.now }
    requires secondowners_len { length secondowners.old ≡ length pool.now }
    ensures { after secondseparators secondnumbers secondwords secondowners ≡ lent (take (length secondseparators.old) planned.now)
        (map (named_item oldnumbers.now 0) pool.now) (map (named_item oldwords.now 0) pool.now)
        (map (named_item oldowners.now 0) pool.now) }
{
    fill_second(
        oldnumbers,
        oldwords,
        oldowners,
        secondnumbers,
        secondwords,
        secondowners,
        pool,
    );
    let pages = secondseparators.len();
    buffers::copy(secondseparators, 0, planned, 0, pages);
}

// The stars placed in the new file, if the old one has no bad page and each star finds a place. Its loops are faster in a function of their
// own: the compiler inlines what is called once, and with the survey beside them they lack registers.
fn place_second(
    old: Geometry,
    new: Geometry,
    numbers: &[u32],
    words: &[u64],
    owners: &[u8],
    secondseparators: &mut [u8],
    secondnumbers: &mut [u32],
    secondwords: &mut [u64],
    secondowners: &mut [u8],
    pool: &mut [u32],
    waiting: &mut [u64],
    bad: usize,
) -> Outcome
    requires ready { Ready new (first_multipliers_lem (multiplier_of new.parameters)) (held secondseparators.old secondnumbers.old secondwords.old secondowners.old) }
    requires numbers_len_bound { old.parameters.pages ≤ bad → (length numbers.now ≤ 32768) × (all_below (2 ^ 31) numbers.now ≡ true) }
    requires pool_len { length pool.old ≡ new.parameters.pages * new.parameters.places }
    requires waiting_len { length waiting.old ≡ new.parameters.pages * new.parameters.places }
    ensures value { bad < old.parameters.pages → (result ≡ Unsound bad)
        × (after secondseparators secondnumbers secondwords secondowners ≡ before secondseparators secondnumbers secondwords secondowners) }
    ensures places_second { old.parameters.pages ≤ bad → PlacesSecond new numbers.now words.now owners.now
        (before secondseparators secondnumbers secondwords secondowners) (after secondseparators secondnumbers secondwords secondowners) result }
{
    if bad < old.parameters.pages as usize {
        return Outcome::Unsound(bad);
    }
    let mut planned = [0u8; 1024];
    if !plan_all(new, numbers, pool, waiting, &mut planned) {
        return Outcome::Overflows;
    }
    write_second(
        numbers,
        words,
        owners,
        secondseparators,
        secondnumbers,
        secondwords,
        secondowners,
        pool,
        &planned,
    );
    Outcome::On(0)
}

// Every old page is tested before a star is placed: all as one stretch where the pool has a place for each item's home, so that no block of
// stars ends early. The pool is scratch.
pub fn carry_pages(
    old: Geometry,
    new: Geometry,
    separators: &[u8],
    numbers: &[u32],
    words: &[u64],
    owners: &[u8],
    secondseparators: &mut [u8],
    secondnumbers: &mut [u32],
    secondwords: &mut [u64],
    secondowners: &mut [u8],
    pool: &mut [u32],
    waiting: &mut [u64],
) -> Outcome
    requires ready { Ready old (first_multipliers_lem (multiplier_of old.parameters)) (held separators.now numbers.now words.now owners.now) }
    requires ready_2 { Ready new (first_multipliers_lem (multiplier_of new.parameters)) (held secondseparators.old secondnumbers.old secondwords.old secondowners.old) }
    requires pool_len { length pool.old ≡ new.parameters.pages * new.parameters.places }
    requires waiting_len { length waiting.old ≡ new.parameters.pages * new.parameters.places }
    ensures value { result ≡ carry_answer old (held separators.now numbers.now words.now owners.now) new }
    ensures secondowners_value { after secondseparators secondnumbers secondwords secondowners
        ≡ carry_file old (held separators.now numbers.now words.now owners.now) new (before secondseparators secondnumbers secondwords secondowners) }
{
    let pages = old.parameters.pages as usize;
    let table = generator::first_multipliers(old.parameters.multiplier);
    if pool.len() < numbers.len() {
        let bad = survey::lowest_unsound(&table, old, separators, numbers, words, owners);
        return place_second(
            old,
            new,
            numbers,
            words,
            owners,
            secondseparators,
            secondnumbers,
            secondwords,
            secondowners,
            pool,
            waiting,
            bad,
        );
    }
    let bad = soundness::survey(
        &table, old, separators, numbers, words, owners, pool, 0, 0, pages,
    );
    place_second(
        old,
        new,
        numbers,
        words,
        owners,
        secondseparators,
        secondnumbers,
        secondwords,
        secondowners,
        pool,
        waiting,
        bad,
    )
}
