// An entry by a cascade.
ghost use Rattle.std.specs.Prelude.{◌≡◌};
ghost use Rattle.placement.specs.Lent.{held, before, after};
ghost use Rattle.placement.specs.Ready.{Pooled};
ghost use Rattle.reach.specs.Known.{Known};
ghost use Rattle.entry_reach.specs.Entry.{Enters, new_star_lem};
ghost use Rattle.entry_cascade.specs.Cascade.{cascade_answer, cascade_file};

use crate::pushing::push;
use entry_reach::Reach;
use hashing::Geometry;
use page_plan::Outcome;

// Enters a number that the file does not hold, from the page that the separators name for it, which is known. Nothing is written before the
// cascade has ended.
pub fn cascade(
    table: &[u32; 90],
    geometry: Geometry,
    separators: &mut [u8],
    numbers: &mut [u32],
    words: &mut [u64],
    owners: &mut [u8],
    pool: &mut [u32],
    waiting: &mut [u64],
    poolowners: &mut [u8],
    number: u32,
    word: u64,
    owner: u8,
    home: u32,
    page: usize,
) -> Outcome
    requires enters { Enters geometry table.now (held separators.old numbers.old words.old owners.old) number home page }
    requires pooled { Pooled geometry.parameters pool.old waiting.old poolowners.old }
    requires known { Known geometry.parameters geometry.growth (held separators.old numbers.old words.old owners.old) pool.old page }
    ensures value { result ≡ cascade_answer geometry.parameters geometry.growth (before separators numbers words owners) (new_star_lem number word owner) page }
    ensures owners_value { after separators numbers words owners ≡ cascade_file geometry.parameters geometry.growth (before separators numbers words owners) (new_star_lem number word owner) page }
{
    let places = geometry.parameters.places as usize;
    let mut planned = [0u8; 1024];
    match push(
        table,
        geometry,
        separators,
        numbers,
        words,
        owners,
        pool,
        waiting,
        &mut planned,
        number,
        home,
        page,
        page + 1,
    ) {
        Reach::Unsound(bad) => Outcome::Unsound(bad),
        Reach::Overflows => Outcome::Overflows,
        Reach::Ends(last) => {
            plan_transfer::apply(
                separators,
                numbers,
                words,
                owners,
                pool,
                waiting,
                poolowners,
                &planned,
                places,
                page,
                last + 1 - page,
                number,
                word,
                owner,
            );
            let on = soundness::named_from(table, geometry, separators, number, home);
            Outcome::On(on)
        }
    }
}
