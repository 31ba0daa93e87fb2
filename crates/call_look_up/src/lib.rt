// The calls about one star that place none. Each contract gives the answer and every lent item at exit, refusals too, by the definitions of
// crate calls.

#![tactic(auto)]

mod reading;
mod rewriting;

pub use reading::look_up;
pub use rewriting::{change, change_stopped};
