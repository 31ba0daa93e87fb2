// One star moved to the new page, and its home in the pool with it.
ghost use Rattle.std.specs.Prelude.{◌≡◌, true, ◌+◌, ◌-◌, ◌*◌, ◌≤◌, ◌<◌, length};
ghost use Rattle.hashing.specs.Limits.{valid_parameters};
ghost use Rattle.hashing.specs.Geometry.{page_count};
ghost use Rattle.pages.specs.Page.{part, place_of};
ghost use Rattle.placement.specs.Rule.{insert, without, star_with};
ghost use Rattle.page_edit.specs.Shift.{Occupied, StandsOn, stars_before, number_at, opened_at, closed_up_lem};
ghost use Rattle.growth_in_place.specs.Expansion.{joins, Moving, Stepped, ClosedUp, Vacancy};

use hashing::Geometry;

// The first place of a page that is empty or holds a number not below this one.
fn place_on(numbers: &[u32], places: usize, page: usize, number: u32) -> usize
    requires { page * places + places ≤ length numbers.now }
    ensures { result ≡ place_of number (part places page numbers.now) }
{
    let first = page * places;
    for i in 0..places {
        let there = numbers[first + i];
        if there == 0 || number <= there {
            return i;
        }
    }
    places
}

// A star put on a page that becomes its home.
fn put_homed(
    numbers: &mut [u32],
    words: &mut [u64],
    owners: &mut [u8],
    homes: &mut [u32],
    places: usize,
    page: usize,
    number: u32,
    word: u64,
    owner: u8,
)
    requires vacancy { Vacancy places page numbers.old words.old owners.old }
    requires places_in_bounds { page * places + places ≤ length homes.old }
    requires page_bound { page < 1024 }
    ensures stands_on { StandsOn places page (insert (star_with number word owner) (stars_before places page numbers words owners)) numbers words owners }
    ensures homes_after { homes.new ≡ opened_at (page * places + place_of number (part places page numbers.old))
        (places - place_of number (part places page numbers.old)) page homes.old }
{
    let place = place_on(numbers, places, page, number);
    page_edit::put_star(
        numbers, words, owners, places, page, place, number, word, owner,
    );
    page_edit::put_number(homes, page * places + place, places - place, page as u32);
}

// The star at this place taken from its page.
fn take_homed(
    numbers: &mut [u32],
    words: &mut [u64],
    owners: &mut [u8],
    homes: &mut [u32],
    places: usize,
    page: usize,
    place: usize,
)
    requires occupied { Occupied places page place numbers.old words.old owners.old }
    requires places_in_bounds { page * places + places ≤ length homes.old }
    ensures stands_on { StandsOn places page (without (number_at places page place numbers.old) (stars_before places page numbers words owners)) numbers words owners }
    ensures homes_after { homes.new ≡ closed_up_lem (page * places + place) (places - place - 1) homes.old }
{
    page_edit::take_star(numbers, words, owners, places, page, place);
    page_edit::take_number(homes, page * places + place, places - place - 1);
}

// The star at this place of a page moved to the new page.
pub fn move_star(
    geometry: Geometry,
    numbers: &mut [u32],
    words: &mut [u64],
    owners: &mut [u8],
    homes: &mut [u32],
    page: usize,
    place: usize,
    added: u32,
)
    requires parameters_value { valid_parameters geometry.parameters ≡ true }
    requires moving { Moving geometry.parameters geometry.growth numbers.old words.old owners.old homes.old }
    requires added_value { (added ≡ page_count geometry.parameters geometry.growth) × (added < geometry.parameters.pages) }
    requires page_lt_added { (page < added) × (place < geometry.parameters.places) }
    requires numbers_nonzero { 0 < number_at geometry.parameters.places page place numbers.old }
    requires numbers_value { joins geometry.parameters geometry.growth (number_at geometry.parameters.places page place numbers.old) ≡ true }
    ensures stepped { Stepped geometry.parameters geometry.growth numbers words owners homes }
    ensures closed_up { ClosedUp geometry.parameters page place numbers words owners }
{
    let places = geometry.parameters.places as usize;
    let at = page * places + place;
    let number = numbers[at];
    let word = words[at];
    let owner = owners[at];
    put_homed(
        numbers,
        words,
        owners,
        homes,
        places,
        added as usize,
        number,
        word,
        owner,
    );
    take_homed(numbers, words, owners, homes, places, page, place);
}
