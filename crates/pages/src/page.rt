// A page as one value of 32 places, copied from the lent lists, and the search of its numbers.
ghost use Rattle.std.specs.Prelude.{◌≡◌, ◌+◌, ◌*◌, ◌≤◌, length, take};
ghost use Rattle.pages.specs.Shape.{page_at, place_in};

// Unused places are empty: number 0, word 0, owner 0.
#[derive(Clone, Copy)]
pub struct Page {
    pub numbers: [u32; 32],
    pub words: [u64; 32],
    pub owners: [u8; 32],
}

// Where a number stands in a page or would stand, and whether it is held.
#[derive(Clone, Copy)]
pub struct Place {
    pub at: usize,
    pub held: bool,
}

pub fn load(numbers: &[u32], words: &[u64], owners: &[u8], places: usize, page: usize) -> Page
    requires places_bound { places ≤ 32 }
    requires places_in_bounds { page * places + places ≤ length numbers.now }
    requires places_in_bounds_2 { page * places + places ≤ length words.now }
    requires places_in_bounds_3 { page * places + places ≤ length owners.now }
    ensures { result ≡ page_at places page numbers.now words.now owners.now }
{
    let mut value = Page {
        numbers: [0u32; 32],
        words: [0u64; 32],
        owners: [0u8; 32],
    };
    let first = page * places;
    for i in 0..places {
        value.numbers[i] = numbers[first + i];
        value.words[i] = words[first + i];
        value.owners[i] = owners[first + i];
    }
    value
}

pub fn search(numbers: &[u32; 32], places: usize, number: u32) -> Place
    requires { (places ≤ 32) × (length numbers.now ≡ 32) }
    ensures { result ≡ place_in number (take places numbers.now) }
{
    for (i, &there) in numbers[..places].iter().enumerate() {
        if there == 0 || number <= there {
            return Place {
                at: i,
                held: there == number,
            };
        }
    }
    Place {
        at: places,
        held: false,
    }
}
