// Reports stored in the list: one behind the others, or all after a filing.
ghost use Rattle.std.specs.Prelude.{◌≡◌, ◌+◌, ◌≤◌, ◌<◌, length, set};
ghost use Rattle.tray_list.specs.Closing.{closed_to};

use reports::Report;

const BLANK: Report = Report {
    number: 0,
    ra: 0,
    dec: 0,
    owner: 0,
    removed: 0,
};

// Stores a report, unless its place is behind the list.
pub fn put(reports: &mut [Report], at: usize, report: Report)
    ensures { reports.new ≡ set reports.old at report }
{
    if at < reports.len() {
        reports[at] = report;
    }
}

// The first `places` of the list become the `stay` reports from place `from` on, and zeros behind them.
pub fn close_up(reports: &mut [Report], from: usize, stay: usize, places: usize)
    requires { (from + stay ≤ places) × (places ≤ length reports.old) }
    ensures { reports.new ≡ closed_to from stay places reports.old }
{
    buffers::move_down(reports, 0, from, stay);
    reports[stay..places].fill(BLANK);
}
