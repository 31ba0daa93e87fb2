// The tray of reports, "a lent list of star reports": adding, the combined look-up, filing. The functions that hold the list are thin: each
// reads or stores reports and calls covered code. Each contract gives the answer and every lent item at exit, refusals too, by the
// definitions of crate reports.

#![tactic(auto)]

mod adding;
mod filing;
mod seeking;

pub use adding::{Added, add};
pub use filing::{Closing, Filing, file_tray};
pub use seeking::look_up;
