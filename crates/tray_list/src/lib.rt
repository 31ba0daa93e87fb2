// The lent list of reports: the thin functions that read a report of it or store one.

#![tactic(auto)]

mod loading;
mod reading;
mod storing;

pub use loading::load;
pub use reading::{Latest, latest_on};
pub use storing::{close_up, put};
