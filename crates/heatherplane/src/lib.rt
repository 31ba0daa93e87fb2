// Every call for C programs, on numbers and slices. include/heatherplane.h declares them.
// Each refuses every bad length and value itself. A contract gives the reply and every lent item at exit by the definitions of crate calls.

#![tactic(auto)]

mod apart;
mod carried;
mod growing;
mod mended;
mod opened;
mod reading;
mod replayed;
mod replies;
mod stopped;
mod tables;
mod trays;
mod writing;

pub use apart::{heatherplane_mark_changed, heatherplane_state_for, heatherplane_version};
pub use carried::heatherplane_carry;
pub use growing::{heatherplane_grow, heatherplane_make, heatherplane_shrink};
pub use mended::heatherplane_mend;
pub use opened::{heatherplane_open_growth, heatherplane_step_growth};
pub use reading::{heatherplane_check, heatherplane_due, heatherplane_look_up};
pub use replayed::heatherplane_replay;
pub use replies::{Growth, Reply};
pub use stopped::{
    heatherplane_change_stopped, heatherplane_enter_stopped, heatherplane_remove_stopped,
};
pub use tables::{heatherplane_read_table, heatherplane_write_table};
pub use trays::{
    Added, Bits, Parameters, heatherplane_add_report, heatherplane_filter_bits,
    heatherplane_look_up_with_tray,
};
pub use writing::{
    heatherplane_cascade, heatherplane_change, heatherplane_enter, heatherplane_remove,
};
