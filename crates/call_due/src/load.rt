// Whether growth is due.
ghost use Rattle.std.specs.Prelude.{◌≡◌, ◌+◌, ◌-◌, ◌/◌, ◌≤◌, ◌<◌, max, length};
ghost use Rattle.placement.specs.Lent.{held};
ghost use Rattle.calls.specs.Answers.{unpooled, due_said};
ghost use Rattle.calls.specs.Calls.{due_of};
ghost use Rattle.calls.specs.Due.{stars};
ghost use Rattle.call_due.specs.Used.{Blank, Reaches, Used};

use call_guard::{file_fits, guard};
use calls::answers::Due;
use hashing::{Geometry, Growth, Parameters};

pub fn due(
    parameters: Parameters,
    growth: Growth,
    separators: &[u8],
    numbers: &[u32],
    words: &[u64],
    owners: &[u8],
) -> Due
    ensures { due_said result ≡ (due_of parameters growth (held separators.now numbers.now words.now owners.now) unpooled).answer }
{
    let fits = file_fits(
        parameters,
        separators.len(),
        numbers.len(),
        words.len(),
        owners.len(),
    );
    if let Err(refusal) = guard(parameters, growth, fits) {
        return Due::Refused(refusal);
    }
    let geometry = Geometry { parameters, growth };
    let highest = geometry.highest_address();
    let split = (highest as usize + 1) * parameters.places as usize;
    let end = end_of_use(numbers, split);
    let count = occupied(&numbers[..end]);
    let pages = in_use(parameters.places, highest, end);
    let room = parameters.load * parameters.places * pages;
    if room < 100 * count {
        return Due::Yes(count);
    }
    Due::No(count)
}

// The pages in use, by where the search for the last number that is not 0 ended. Without `places - 1`: shared with the test of the
// limits, it has the compiler read the parameters across two of the caller's stores, which costs a small file a sixth more.
fn in_use(places: u32, highest: u32, end: usize) -> u32
    requires { (1 ≤ places) × (places ≤ 32) × (highest < 1024) × (end ≤ 32768) }
    ensures { result ≡ max (highest + 1) ((end + places - 1) / places) }
{
    if end == 0 {
        return highest + 1;
    }
    let last = (end as u32 - 1) / places;
    if highest < last {
        return last + 1;
    }
    highest + 1
}

// The addressed items, up to `split`, or those up to the last number that is not 0 where one stands above.
fn end_of_use(numbers: &[u32], split: usize) -> usize
    requires { (split ≤ length numbers.now) × (length numbers.now ≤ 32768) }
    ensures { Reaches numbers.now split result }
{
    if occupied(&numbers[split..]) == 0 {
        return split;
    }
    used(numbers)
}

// The items up to the last number that is not 0.
fn used(numbers: &[u32]) -> usize
    requires { length numbers.now ≤ 32768 }
    ensures { Used numbers.now result }
{
    for i in (0..trimmed(numbers)).rev() {
        if numbers[i] != 0 {
            return i + 1;
        }
    }
    0
}

// The items without the blocks of zeros at their end: `occupied` takes many numbers at a time, the scan in `used` one.
fn trimmed(numbers: &[u32]) -> usize
    requires { length numbers.now ≤ 32768 }
    ensures { Blank numbers.now result }
{
    let mut rest = numbers;
    while let Some((front, block)) = rest.split_last_chunk::<128>() {
        if occupied(block) != 0 {
            break;
        }
        rest = front;
    }
    rest.len()
}

// How many numbers are not 0, by those that are: a vector of equal lanes is subtracted as it comes.
fn occupied(numbers: &[u32]) -> u32
    requires { length numbers.now ≤ 32768 }
    ensures { result ≡ stars numbers.now }
{
    let mut empty: u32 = 0;
    for number in numbers {
        if *number == 0 {
            empty += 1;
        }
    }
    numbers.len() as u32 - empty
}
