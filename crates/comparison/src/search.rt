// The first page and place at which two files differ.
ghost use Rattle.std.specs.Prelude.{◌≡◌, suc, ◌+◌, ◌*◌, ◌≤◌, length};
ghost use Rattle.placement.specs.Lent.{held};
ghost use Rattle.calls.specs.Spots.{spot_in};

// A place of a page; the place past the last one is the page's separator.
#[derive(Clone, Copy)]
pub struct Spot {
    pub page: usize,
    pub place: usize,
}

// Page by page, the places and then the separator. Where nothing differs the answer is the spot past the last page.
// Stays: no `Option`, since the contract states the answer as a spot.
pub fn compare(
    separators: &[u8],
    numbers: &[u32],
    words: &[u64],
    owners: &[u8],
    planned: &[u8],
    plannednumbers: &[u32],
    plannedwords: &[u64],
    plannedowners: &[u8],
    pages: usize,
    places: usize,
) -> Spot
    requires pages_in_bounds { (pages ≤ length separators.now) × (pages ≤ length planned.now) }
    requires places_in_bounds { (pages * places ≤ length numbers.now) × (pages * places ≤ length plannednumbers.now) }
    requires places_in_bounds_2 { (pages * places ≤ length words.now) × (pages * places ≤ length plannedwords.now) }
    requires places_in_bounds_3 { (pages * places ≤ length owners.now) × (pages * places ≤ length plannedowners.now) }
    ensures place_value { result.page * suc places + result.place ≡ spot_in pages places (held separators.now numbers.now words.now owners.now) (held planned.now plannednumbers.now plannedwords.now plannedowners.now) }
    ensures place_le_places { result.place ≤ places }
{
    let mut spot = Spot {
        page: pages,
        place: 0,
    };
    'pages: for page in 0..pages {
        for place in 0..places {
            let item = page * places + place;
            if numbers[item] != plannednumbers[item] {
                spot = Spot { page, place };
                break 'pages;
            }
            if words[item] != plannedwords[item] {
                spot = Spot { page, place };
                break 'pages;
            }
            if owners[item] != plannedowners[item] {
                spot = Spot { page, place };
                break 'pages;
            }
        }
        if separators[page] != planned[page] {
            spot = Spot {
                page,
                place: places,
            };
            break 'pages;
        }
    }
    spot
}
