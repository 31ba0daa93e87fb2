// One star on one page.
ghost use Rattle.placement.specs.Rule.{insert, without, star_with};
ghost use Rattle.page_edit.specs.Shift.{Vacant, Occupied, StandsOn, stars_before, number_at};

use crate::items::{put_number, put_owner, put_word, take_number, take_owner, take_word};

// The star put on a page whose last place is empty, at the place where its search ended.
pub fn put_star(
    numbers: &mut [u32],
    words: &mut [u64],
    owners: &mut [u8],
    places: usize,
    page: usize,
    place: usize,
    number: u32,
    word: u64,
    owner: u8,
)
    requires { Vacant places page place number numbers.old words.old owners.old }
    ensures { StandsOn places page (insert (star_with number word owner) (stars_before places page numbers words owners)) numbers words owners }
{
    let from = page * places + place;
    let count = places - place;
    put_number(numbers, from, count, number);
    put_word(words, from, count, word);
    put_owner(owners, from, count, owner);
}

// The star at this place taken from the page.
pub fn take_star(
    numbers: &mut [u32],
    words: &mut [u64],
    owners: &mut [u8],
    places: usize,
    page: usize,
    place: usize,
)
    requires { Occupied places page place numbers.old words.old owners.old }
    ensures { StandsOn places page (without (number_at places page place numbers.old) (stars_before places page numbers words owners)) numbers words owners }
{
    let from = page * places + place;
    let behind = places - place - 1;
    take_number(numbers, from, behind);
    take_word(words, from, behind);
    take_owner(owners, from, behind);
}
