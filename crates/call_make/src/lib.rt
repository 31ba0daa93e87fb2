// The call make. Its contract gives the answer, the growth state and every lent item at exit, refusals too, by the definitions of crate calls.

#![tactic(auto)]

mod emptying;

pub use emptying::{empty, make};
