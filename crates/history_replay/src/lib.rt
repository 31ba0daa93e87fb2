// A lent history, run through the calls: `replay` from a file made for it, `resume` from a lent one.

#![tactic(auto)]

mod calling;
mod replaying;

pub use replaying::{Replayed, Resumed, replay, resume};
