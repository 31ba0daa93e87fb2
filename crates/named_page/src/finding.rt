// The page that the separators name for a number, and what it holds of it.
ghost use Rattle.std.specs.Prelude.{◌≡◌, true, false, ◌*◌, length};
ghost use Rattle.pages.specs.Position.{valid_number};
ghost use Rattle.placement.specs.Lent.{held, before};
ghost use Rattle.placement.specs.Ready.{Ready};
ghost use Rattle.placement.specs.Shape.{home_under};
ghost use Rattle.reach.specs.Known.{Known};
ghost use Rattle.named_page.specs.Named.{NamedAs, HomedAs};

use hashing::Geometry;

#[derive(Clone, Copy)]
pub struct Named {
    pub home: u32,
    pub page: usize,
    // the page is below M and sound
    pub readable: bool,
    pub held: bool,
    // where the number stands on the page or would stand, if it is readable
    pub place: u32,
    // the item there, if the number is held, its word and its owner
    pub item: usize,
    pub word: u64,
    pub owner: u8,
}

// Reads the separators and one page, copied as a value before it is searched. If the page is readable, `homes` has its stars' homes, 0 for
// an empty place. Callers make the geometry before the table, and find the number's home before the geometry is copied to here: a copy that
// directly follows its stores waits for them, and the home with it.
pub fn find(
    table: &[u32; 90],
    geometry: Geometry,
    separators: &[u8],
    numbers: &[u32],
    words: &[u64],
    owners: &[u8],
    number: u32,
    home: u32,
    homes: &mut [u32; 32],
) -> Named
    requires ready { Ready geometry table.now (held separators.now numbers.now words.now owners.now) }
    requires number_value { valid_number number ≡ true }
    requires home_value { home ≡ home_under geometry number }
    requires homes_len { length homes.old ≡ 32 }
    ensures named_as { NamedAs geometry.parameters geometry.growth (held separators.now numbers.now words.now owners.now) number result }
    ensures homed_as { HomedAs geometry.parameters geometry.growth (held separators.now numbers.now words.now owners.now) result homes.new }
{
    let places = geometry.parameters.places as usize;
    let page = soundness::named_from(table, geometry, separators, number, home);
    if page == geometry.parameters.pages as usize {
        return unread(home, page);
    }
    let value = pages::page::load(numbers, words, owners, places, page);
    if !soundness::page_sound(
        table,
        geometry,
        separators,
        &value.numbers,
        &value.words,
        &value.owners,
        page,
        homes,
    ) {
        return unread(home, page);
    }
    let found = pages::page::search(&value.numbers, places, number);
    let at = found.at;
    let place = at as u32;
    if !found.held {
        return Named {
            home,
            page,
            readable: true,
            held: false,
            place,
            item: 0,
            word: 0,
            owner: 0,
        };
    }
    Named {
        home,
        page,
        readable: true,
        held: true,
        place,
        item: page * places + at,
        word: value.words[at],
        owner: value.owners[at],
    }
}

// The same for a call that has a pool, which keeps the homes of a readable page, so that a survey need not test it again.
pub fn find_kept(
    table: &[u32; 90],
    geometry: Geometry,
    separators: &[u8],
    numbers: &[u32],
    words: &[u64],
    owners: &[u8],
    pool: &mut [u32],
    number: u32,
) -> Named
    requires ready { Ready geometry table.now (held separators.now numbers.now words.now owners.now) }
    requires pool_len { length pool.old ≡ geometry.parameters.pages * geometry.parameters.places }
    requires number_value { valid_number number ≡ true }
    ensures named_as { NamedAs geometry.parameters geometry.growth (held separators.now numbers.now words.now owners.now) number result }
    ensures known { result.readable ≡ true → Known geometry.parameters geometry.growth (held separators.now numbers.now words.now owners.now) pool.new result.page }
{
    let home = hashing::home(table, geometry, number);
    let mut homes = [0u32; 32];
    let named = find(
        table, geometry, separators, numbers, words, owners, number, home, &mut homes,
    );
    if !named.readable {
        return named;
    }
    let places = geometry.parameters.places as usize;
    let page = named.page;
    buffers::copy(pool, page * places, &homes, 0, places);
    named
}

fn unread(home: u32, page: usize) -> Named
    ensures { result ≡ record { home = home; page = page; readable = false; held = false; place = 0; item = 0; word = 0; owner = 0 } }
{
    Named {
        home,
        page,
        readable: false,
        held: false,
        place: 0,
        item: 0,
        word: 0,
        owner: 0,
    }
}
