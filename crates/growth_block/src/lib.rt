// One page of a growth that the new page has room for: planned with the pages of its block alone.

#![tactic(auto)]

mod block;

pub use block::{is_local, plan_block};
