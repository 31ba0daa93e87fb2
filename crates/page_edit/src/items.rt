// One list's items moved by one place, once for each width.
// Stays: `copy_within`, and a generic function over all widths, call memmove, and the library asks for memcpy and memset alone (docs/USING.md).
ghost use Rattle.std.specs.Prelude.{◌≡◌, ◌+◌, ◌≤◌, ◌<◌, length};
ghost use Rattle.page_edit.specs.Shift.{opened_at, closed_up_lem};

// The item put at `from`, and the `count` items from there moved up: the last of them is lost.
pub fn put_number(numbers: &mut [u32], from: usize, count: usize, number: u32)
    requires { from + count ≤ length numbers.old }
    ensures { numbers.new ≡ opened_at from count number numbers.old }
{
    let mut carried = number;
    let mut i = 0;
    while i < count {
        let next = numbers[from + i];
        numbers[from + i] = carried;
        carried = next;
        i += 1;
    }
}

pub fn put_word(words: &mut [u64], from: usize, count: usize, word: u64)
    requires { from + count ≤ length words.old }
    ensures { words.new ≡ opened_at from count word words.old }
{
    let mut carried = word;
    let mut i = 0;
    while i < count {
        let next = words[from + i];
        words[from + i] = carried;
        carried = next;
        i += 1;
    }
}

pub fn put_owner(owners: &mut [u8], from: usize, count: usize, owner: u8)
    requires { from + count ≤ length owners.old }
    ensures { owners.new ≡ opened_at from count owner owners.old }
{
    let mut carried = owner;
    let mut i = 0;
    while i < count {
        let next = owners[from + i];
        owners[from + i] = carried;
        carried = next;
        i += 1;
    }
}

// The item at `from` taken out, and the `behind` items after it moved down: 0 is left in the last place.
pub fn take_number(numbers: &mut [u32], from: usize, behind: usize)
    requires { from + behind < length numbers.old }
    ensures { numbers.new ≡ closed_up_lem from behind numbers.old }
{
    let mut i = 0;
    while i < behind {
        numbers[from + i] = numbers[from + i + 1];
        i += 1;
    }
    numbers[from + behind] = 0;
}

pub fn take_word(words: &mut [u64], from: usize, behind: usize)
    requires { from + behind < length words.old }
    ensures { words.new ≡ closed_up_lem from behind words.old }
{
    let mut i = 0;
    while i < behind {
        words[from + i] = words[from + i + 1];
        i += 1;
    }
    words[from + behind] = 0;
}

pub fn take_owner(owners: &mut [u8], from: usize, behind: usize)
    requires { from + behind < length owners.old }
    ensures { owners.new ≡ closed_up_lem from behind owners.old }
{
    let mut i = 0;
    while i < behind {
        owners[from + i] = owners[from + i + 1];
        i += 1;
    }
    owners[from + behind] = 0;
}
