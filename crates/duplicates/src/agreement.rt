// Whether the words of one star name the same position word and owner.
ghost use Rattle.std.specs.Prelude.{◌≡◌, ◌≤◌, length, take};
ghost use Rattle.duplicates.specs.Words.{pair_agrees_lem, neighbours_agree};

use plan_transfer::{owner_named, word_named};

// Home and number are compared at once.
fn pair_agrees(words: &[u64], owners: &[u8], first: u64, second: u64) -> bool
    ensures { result ≡ pair_agrees_lem words.now owners.now first second }
{
    if first / 65536 != second / 65536 {
        return true;
    }
    let one = (first % 65536) as u32;
    let other = (second % 65536) as u32;
    if word_named(words, one, 0) != word_named(words, other, 0) {
        return false;
    }
    owner_named(owners, one, 0) == owner_named(owners, other, 0)
}

// In a list that is in order, neighbours tell all.
pub fn all_agree(words: &[u64], owners: &[u8], waiting: &[u64], end: usize) -> bool
    requires end_in_bounds { end ≤ length waiting.now }
    requires end_bound { end ≤ 32768 }
    ensures { result ≡ neighbours_agree words.now owners.now (take end waiting.now) }
{
    for i in 1..end {
        if !pair_agrees(words, owners, waiting[i - 1], waiting[i]) {
            return false;
        }
    }
    true
}
