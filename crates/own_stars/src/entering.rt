// Stars entered one by one into a file that the rule lays.
ghost use Rattle.std.specs.Prelude.{◌<◌};
ghost use Rattle.placement.specs.Rule.{star_with};
ghost use Rattle.placement.specs.Lent.{held, before, after};
ghost use Rattle.placement.specs.Ready.{Ready, Pooled};
ghost use Rattle.own_stars.specs.Own.{Enterable, EntersOne, EnteredBelow, EntersPlace, EntersOwn};

use decision::Newcomer;
use hashing::Geometry;
use page_plan::Outcome;
use pages::page::Page;

// A star that the file does not hold: the answer is whether all fit with it.
fn enter_one(
    table: &[u32; 90],
    geometry: Geometry,
    separators: &mut [u8],
    numbers: &mut [u32],
    words: &mut [u64],
    owners: &mut [u8],
    pool: &mut [u32],
    waiting: &mut [u64],
    poolowners: &mut [u8],
    number: u32,
    word: u64,
    owner: u8,
) -> bool
    requires ready { Ready geometry table.now (held separators.old numbers.old words.old owners.old) }
    requires pooled { Pooled geometry.parameters pool.old waiting.old poolowners.old }
    requires enterable { Enterable geometry.parameters geometry.growth (held separators.old numbers.old words.old owners.old) number word }
    ensures { EntersOne geometry.parameters geometry.growth (before separators numbers words owners) (after separators numbers words owners) (star_with number word owner) result }
{
    let places = geometry.parameters.places as usize;
    let pages = geometry.parameters.pages as usize;
    let home = hashing::home(table, geometry, number);
    let page = soundness::named_from(table, geometry, separators, number, home);
    let next = page + 1;
    reach::survey_pages(
        table, geometry, separators, numbers, words, owners, pool, page, next, pages,
    );
    let value = pages::page::load(numbers, words, owners, places, page);
    let found = pages::page::search(&value.numbers, places, number);
    let star = Newcomer {
        number,
        word,
        owner,
        home,
        place: found.at as u32,
        page,
    };
    match entry_reach::enter_star(
        table, geometry, separators, numbers, words, owners, pool, waiting, poolowners, star, pages,
    ) {
        Outcome::On(_) => true,
        Outcome::Unsound(_) => false,
        Outcome::Overflows => false,
    }
}

// The star at a place of the value, if there is one.
fn enter_place(
    table: &[u32; 90],
    geometry: Geometry,
    separators: &mut [u8],
    numbers: &mut [u32],
    words: &mut [u64],
    owners: &mut [u8],
    pool: &mut [u32],
    waiting: &mut [u64],
    poolowners: &mut [u8],
    own: Page,
    place: usize,
) -> bool
    requires ready { Ready geometry table.now (held separators.old numbers.old words.old owners.old) }
    requires pooled { Pooled geometry.parameters pool.old waiting.old poolowners.old }
    requires entered_below { EnteredBelow geometry.parameters geometry.growth (held separators.old numbers.old words.old owners.old) own place }
    requires place_lt_places { place < geometry.parameters.places }
    ensures { EntersPlace geometry.parameters geometry.growth (before separators numbers words owners) (after separators numbers words owners) own place result }
{
    if own.numbers[place] == 0 {
        return true;
    }
    enter_one(
        table,
        geometry,
        separators,
        numbers,
        words,
        owners,
        pool,
        waiting,
        poolowners,
        own.numbers[place],
        own.words[place],
        own.owners[place],
    )
}

// The stars of the value's places from `from` on, until with the next one not all would fit; the answer is its place, or how many places there are.
pub fn enter_own(
    table: &[u32; 90],
    geometry: Geometry,
    separators: &mut [u8],
    numbers: &mut [u32],
    words: &mut [u64],
    owners: &mut [u8],
    pool: &mut [u32],
    waiting: &mut [u64],
    poolowners: &mut [u8],
    own: Page,
    from: usize,
) -> usize
    requires ready { Ready geometry table.now (held separators.old numbers.old words.old owners.old) }
    requires pooled { Pooled geometry.parameters pool.old waiting.old poolowners.old }
    requires entered_below { EnteredBelow geometry.parameters geometry.growth (held separators.old numbers.old words.old owners.old) own from }
    ensures { EntersOwn geometry.parameters geometry.growth (before separators numbers words owners) (after separators numbers words owners) own from result }
{
    let places = geometry.parameters.places as usize;
    for i in from..places {
        if !enter_place(
            table, geometry, separators, numbers, words, owners, pool, waiting, poolowners, own, i,
        ) {
            return i;
        }
    }
    places
}
