// Filing the reports of a tray, past the filing's own refusals.

#![tactic(auto)]

mod filing;
mod held_star;
mod new_star;
mod one_report;
mod positions;

pub use filing::{Filed, file_reports};
pub use positions::{position_fits, position_of};
