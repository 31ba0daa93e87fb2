// Adding a report.
ghost use Rattle.std.specs.Prelude.{◌≡◌, List, length, set, ◌||◌};
ghost use Rattle.pages.specs.Position.{valid_position};
ghost use Rattle.reports.specs.Reports.{reported_position, is_removal, stored as Reports·stored};
ghost use Rattle.reports.specs.TrayCalls.{add_of};
ghost use Rattle.calls.specs.Shape.{admission_number};
ghost use Rattle.tray.specs.Lent.{tray_of, AddsReport};
ghost use Rattle.tray.specs.Shape.{turned};
ghost use Rattle.tray.specs.Refusals.{tray_lengths, report_refusal};

use calls::answers::{Placed, Refusal};
use calls::records::GrowthRecord;
use hashing::Parameters;
use pages::position::Position;
use reports::Report;
use tray_list::put;

// The answer, with the count after the call.
#[derive(Clone, Copy)]
pub struct Added {
    pub answer: Placed,
    pub count: u32,
}

// The answer, and the report that is stored at `at`: behind the list, where the call is refused.
#[derive(Clone, Copy)]
struct Adding {
    added: Added,
    at: usize,
    report: Report,
}

// "a report is added behind the others"
pub fn add(
    parameters: Parameters,
    growth: GrowthRecord,
    reports: &mut [Report],
    count: u32,
    filter: &mut [u64],
    report: Report,
) -> Added
    ensures leaves { AddsReport (add_of parameters growth (tray_of reports.old count) filter.old report) result reports.new filter.new }
{
    let adding = decide(parameters, growth, reports.len(), count, filter, report);
    put(reports, adding.at, adding.report);
    adding.added
}

// What the call does to any list of this length; it does it to the filter.
fn decide(
    parameters: Parameters,
    growth: GrowthRecord,
    places: usize,
    count: u32,
    filter: &mut [u64],
    report: Report,
) -> Adding
    ensures { (reports : List Report) → length reports ≡ places → AddsReport (add_of parameters growth (tray_of reports count) filter.old report)
        result.added (set reports result.at result.report) filter.new }
{
    let fits = tray_fits(places, count, filter.len());
    if let Err(refusal) = admit(parameters, growth, fits, count, report) {
        return turn_away(refusal, count, places, report);
    }
    tray_filter::mark(parameters.multiplier, filter, report.number);
    let answer = Placed::On(0, 0);
    let added = Added {
        answer,
        count: count + 1,
    };
    let kept = stored(report);
    Adding {
        added,
        at: count as usize,
        report: kept,
    }
}

// "1, 2, 3, 4 (not for a removal), 14". `fits`: tray and filter are as long as they must be.
fn admit(
    parameters: Parameters,
    growth: GrowthRecord,
    fits: bool,
    count: u32,
    report: Report,
) -> Result<(), Refusal>
    ensures { admission_number result ≡ report_refusal parameters growth fits count report }
{
    call_guard::admit(parameters, growth, fits)?;
    if !pages::position::number_valid(report.number) {
        return Err(Refusal::BadNumber);
    }
    if !placed_well(report) {
        return Err(Refusal::BadPosition);
    }
    if 256 <= count {
        return Err(Refusal::TrayFull);
    }
    Ok(())
}

// Not "A wrong list or filter length or a count above 256".
pub fn tray_fits(places: usize, count: u32, filter: usize) -> bool
    ensures { result ≡ tray_lengths places count filter }
{
    if places != 256 {
        return false;
    }
    if filter != 32 {
        return false;
    }
    count <= 256
}

fn turn_away(refusal: Refusal, count: u32, places: usize, report: Report) -> Adding
    ensures { result ≡ turned refusal count places report }
{
    let answer = Placed::Refused(refusal, 0);
    let added = Added { answer, count };
    Adding {
        added,
        at: places,
        report,
    }
}

// A removal has no position that could be out of range.
fn placed_well(report: Report) -> bool
    ensures { result ≡ (is_removal report || valid_position (reported_position report)) }
{
    if report.removed != 0 {
        return true;
    }
    pages::position::position_valid(position_of(report))
}

pub fn position_of(report: Report) -> Position
    ensures { result ≡ reported_position report }
{
    Position {
        ra: report.ra,
        dec: report.dec,
    }
}

// "(unread and stored as 0, 0 in a removal)"
fn stored(report: Report) -> Report
    ensures { result ≡ Reports·stored report }
{
    if report.removed == 0 {
        return report;
    }
    Report {
        number: report.number,
        ra: 0,
        dec: 0,
        owner: report.owner,
        removed: report.removed,
    }
}
