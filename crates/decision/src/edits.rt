// A page edited in place, which is one store.
ghost use Rattle.placement.specs.Rule.{insert, without, star_with};
ghost use Rattle.page_edit.specs.Shift.{Vacant, Occupied, stars_before, number_at};
ghost use Rattle.decision.specs.Edits.{Edited};

use crate::chosen::Newcomer;

pub fn put(
    numbers: &mut [u32],
    words: &mut [u64],
    owners: &mut [u8],
    places: usize,
    page: usize,
    place: usize,
    star: Newcomer,
    limit: usize,
)
    requires { Vacant places page place star.number numbers.old words.old owners.old }
    ensures { Edited places page (insert (star_with star.number star.word star.owner) (stars_before places page numbers words owners)) limit numbers words owners }
{
    if limit == 0 {
        return;
    }
    page_edit::put_star(
        numbers,
        words,
        owners,
        places,
        page,
        place,
        star.number,
        star.word,
        star.owner,
    );
}

pub fn take(
    numbers: &mut [u32],
    words: &mut [u64],
    owners: &mut [u8],
    places: usize,
    page: usize,
    place: usize,
    limit: usize,
)
    requires { Occupied places page place numbers.old words.old owners.old }
    ensures { Edited places page (without (number_at places page place numbers.old) (stars_before places page numbers words owners)) limit numbers words owners }
{
    if limit == 0 {
        return;
    }
    page_edit::take_star(numbers, words, owners, places, page, place);
}
