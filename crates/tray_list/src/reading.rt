// "the latest on a star answers"
ghost use Rattle.std.specs.Prelude.{◌≡◌, cond, ◌≤◌, length, take};
ghost use Rattle.tray_list.specs.Latest.{latest_in, if_on_lem, later as Latest·later, nothing as Latest·nothing};

use reports::Report;

// The latest report on a star, if there is one.
#[derive(Clone, Copy)]
pub struct Latest {
    pub found: bool,
    pub report: Report,
}

// Among the first reports of the list.
pub fn latest_on(reports: &[Report], count: usize, number: u32) -> Latest
    requires { count ≤ length reports.now }
    ensures { result ≡ latest_in number Latest·nothing (take count reports.now) }
{
    let mut found = nothing();
    for report in &reports[..count] {
        found = later(found, number, *report);
    }
    found
}

fn nothing() -> Latest
    ensures { result ≡ Latest·nothing }
{
    let report = Report {
        number: 0,
        ra: 0,
        dec: 0,
        owner: 0,
        removed: 0,
    };
    Latest {
        found: false,
        report,
    }
}

fn later(latest: Latest, number: u32, report: Report) -> Latest
    ensures { result ≡ Latest·later number latest report }
{
    let newer = if_on(number, report);
    prefer(newer, latest)
}

// The report, if it is on the star.
fn if_on(number: u32, report: Report) -> Latest
    ensures { result ≡ if_on_lem number report }
{
    let found = report.number == number;
    Latest { found, report }
}

fn prefer(one: Latest, other: Latest) -> Latest
    ensures { result ≡ cond one.found one other }
{
    if one.found {
        return one;
    }
    other
}
