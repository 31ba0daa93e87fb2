// The own stars of a page that has not overflowed, taken from it: all others stay where they are.
ghost use Rattle.placement.specs.Lent.{held, before, after};
ghost use Rattle.placement.specs.Ready.{Ready, Pooled};
ghost use Rattle.own_stars.specs.Own.{Takeable, TakesOne, TakeableOwn, TakesOwn};

use decision::{Decision, Newcomer};
use hashing::Geometry;
use pages::page::Page;

fn take_one(
    table: &[u32; 90],
    geometry: Geometry,
    separators: &mut [u8],
    numbers: &mut [u32],
    words: &mut [u64],
    owners: &mut [u8],
    pool: &mut [u32],
    waiting: &mut [u64],
    poolowners: &mut [u8],
    page: usize,
    number: u32,
)
    requires ready { Ready geometry table.now (held separators.old numbers.old words.old owners.old) }
    requires pooled { Pooled geometry.parameters pool.old waiting.old poolowners.old }
    requires takeable { Takeable geometry.parameters geometry.growth (held separators.old numbers.old words.old owners.old) page number }
    ensures { TakesOne geometry.parameters geometry.growth (before separators numbers words owners) (after separators numbers words owners) page number }
{
    let places = geometry.parameters.places as usize;
    let value = pages::page::load(numbers, words, owners, places, page);
    let found = pages::page::search(&value.numbers, places, number);
    let nobody = Newcomer {
        number: 0,
        word: 0,
        owner: 0,
        home: 0,
        place: 0,
        page: 0,
    };
    let none = [0u8; 1];
    decision::carry_out(
        geometry.parameters,
        separators,
        numbers,
        words,
        owners,
        pool,
        waiting,
        poolowners,
        &none,
        Decision::Take(page, found.at),
        nobody,
        geometry.parameters.pages as usize,
        true,
    );
}

pub fn take_own(
    table: &[u32; 90],
    geometry: Geometry,
    separators: &mut [u8],
    numbers: &mut [u32],
    words: &mut [u64],
    owners: &mut [u8],
    pool: &mut [u32],
    waiting: &mut [u64],
    poolowners: &mut [u8],
    own: Page,
    page: usize,
)
    requires ready { Ready geometry table.now (held separators.old numbers.old words.old owners.old) }
    requires pooled { Pooled geometry.parameters pool.old waiting.old poolowners.old }
    requires takeable_own { TakeableOwn geometry.parameters geometry.growth (held separators.old numbers.old words.old owners.old) own page }
    ensures { TakesOwn geometry.parameters geometry.growth (before separators numbers words owners) (after separators numbers words owners) own }
{
    for i in (0..geometry.parameters.places as usize).rev() {
        let number = own.numbers[i];
        if number != 0 {
            take_one(
                table, geometry, separators, numbers, words, owners, pool, waiting, poolowners,
                page, number,
            );
        }
    }
}
