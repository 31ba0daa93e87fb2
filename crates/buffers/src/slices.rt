// Slices of plain items.
ghost use Rattle.std.specs.Prelude.{◌≡◌, ◌+◌, ◌≤◌, length, drop, replicate};
ghost use Rattle.std.proofs.Math.Seq.{paste};

use crate::zero::Zeroed;

// Items that a clearing reads before it writes them.
const BLOCK: usize = 128;

// No `copy_from_slice`: on lent slices it is a memmove, and the library asks for memcpy and memset alone (docs/USING.md).
pub fn copy<T: Copy>(to: &mut [T], at: usize, from: &[T], start: usize, items: usize)
    requires in_bounds { at + items ≤ length to.old }
    requires in_bounds_2 { start + items ≤ length from.now }
    ensures { to.new ≡ paste to.old at (drop start from.now) items }
{
    for i in 0..items {
        to[at + i] = from[start + i];
    }
}

// The `count` items from `from` on, moved down to `to`: no `copy_within`, for the same reason.
pub fn move_down<T: Copy>(items: &mut [T], to: usize, from: usize, count: usize)
    requires down { to ≤ from }
    requires in_bounds { from + count ≤ length items.old }
    ensures { items.new ≡ paste items.old to (drop from items.old) count }
{
    for i in 0..count {
        items[to + i] = items[from + i];
    }
}

pub fn fill<T: Zeroed>(to: &mut [T], value: T)
    ensures { to.new ≡ replicate (length to.old) value }
{
    for i in 0..to.len() {
        to[i] = value;
    }
}

// All items in one, which is zero only if each of them is.
fn united<T: Zeroed>(items: &[T]) -> T
    ensures { result ≡ T.zero → items.now ≡ replicate (length items.now) T.zero }
{
    let mut all = T::zero();
    for item in items {
        all = all.united(*item);
    }
    all
}

// Makes every item zero, and writes nothing where all are.
fn clear_block<T: Zeroed>(block: &mut [T])
    ensures { block.new ≡ replicate (length block.old) T.zero }
{
    if !united(block).is_zero() {
        fill(block, T::zero());
    }
}

// Makes every item zero, and writes only blocks that hold something else, and what is left behind the blocks.
pub fn clear<T: Zeroed>(to: &mut [T])
    ensures { to.new ≡ replicate (length to.old) T.zero }
{
    let blocks = to.len() / BLOCK;
    for block in 0..blocks {
        let at = block * BLOCK;
        clear_block(&mut to[at..at + BLOCK]);
    }
    fill(&mut to[blocks * BLOCK..], T::zero());
}
