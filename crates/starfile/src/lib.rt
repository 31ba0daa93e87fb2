// The calls on a lent star file under the growth record that a caller keeps. Each contract gives the answer, the record and every lent item
// at exit, refusals too, by the definitions of crate calls.

#![tactic(auto)]

mod advancing;
mod growing;
mod opening;
mod reading;
mod stopping;
mod whole;
mod writing;

pub use advancing::step_growth;
pub use carrying::carry;
pub use growing::{grow, make, shrink};
pub use opening::open_growth;
pub use reading::{check, due, look_up};
pub use stopping::{change_stopped, enter_stopped, remove_stopped};
pub use writing::{cascade, change, enter, remove};
