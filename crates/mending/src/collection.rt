// The distinct stars of all pages as words in order.
ghost use Rattle.mending.specs.Collect.{Collects, Collectable};

use duplicates::{all_agree, drop_repeated, mark_ends, sort_groups};
use hashing::Parameters;
use page_plan::gather;

// Whether the stars of one number are alike, and if so how many words are left, one for each number.
// Stays: `Collects` of specs/Collect, which may not change, takes this record.
#[derive(Clone, Copy)]
pub struct Collected {
    pub alike: bool,
    pub end: usize,
}

pub fn collect(
    parameters: Parameters,
    numbers: &[u32],
    words: &[u64],
    owners: &[u8],
    homes: &[u32],
    waiting: &mut [u64],
    ends: &mut [u32],
) -> Collected
    requires { Collectable parameters numbers.now homes.now waiting.old ends.old }
    ensures { Collects parameters numbers.now words.now owners.now homes.now waiting.new ends.new result }
{
    let places = parameters.places as usize;
    let pages = parameters.pages as usize;
    let end = gather(numbers, homes, waiting, ends, places, 0, pages, 0, 0);
    sort_groups(waiting, ends, pages, end);
    if !all_agree(words, owners, waiting, end) {
        return Collected {
            alike: false,
            end: 0,
        };
    }
    let kept = drop_repeated(waiting, end);
    mark_ends(waiting, ends, pages, kept);
    Collected {
        alike: true,
        end: kept,
    }
}
