// Lent slices of plain items. A copy puts the `items` items of `from` from item `start` on into `to` from item `at` on; a fill makes every
// item `value`; a clearing makes every item 0, and reads before it writes.

#![tactic(auto)]

mod slices;
mod zero;

pub use slices::{clear, copy, fill, move_down};
