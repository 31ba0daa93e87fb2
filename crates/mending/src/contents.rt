// Whether every place holds what a place may hold.
ghost use Rattle.std.specs.Prelude.{◌≡◌, length};
ghost use Rattle.calls.specs.Mend.{valid_item, valid_items};

use pages::position::{number_valid, word_valid};

fn item_valid(number: u32, word: u64, owner: u8) -> bool
    ensures { result ≡ valid_item number word owner }
{
    if number == 0 {
        if word != 0 {
            return false;
        }
        return owner == 0;
    }
    if !number_valid(number) {
        return false;
    }
    word_valid(word)
}

pub fn items_valid(numbers: &[u32], words: &[u64], owners: &[u8]) -> bool
    requires { (length words.now ≡ length numbers.now) × (length owners.now ≡ length numbers.now) }
    ensures { result ≡ valid_items numbers.now words.now owners.now }
{
    for i in 0..numbers.len() {
        if !item_valid(numbers[i], words[i], owners[i]) {
            return false;
        }
    }
    true
}
