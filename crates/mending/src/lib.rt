// The call mend: what the pages hold after a power loss, placed anew. No separator is read.

#![tactic(auto)]

mod call;
mod collection;
mod contents;
mod item_homes;
mod renewing;

pub use call::mend;
