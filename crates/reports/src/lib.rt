// A tray of star reports with a filter beside it: what the calls on it answer and leave is stated in specs/, what holds of it is proved in
// proofs/. There is no code here but the form of a report.

#![tactic(auto)]

// A star report. `removed` is the mark for "removed": 0 for a position, any other number for a removal, which has no position.
#[repr(C)]
#[derive(Clone, Copy)]
pub struct Report {
    pub number: u32,
    pub ra: u32,
    pub dec: i32,
    pub owner: u8,
    pub removed: u8,
}
