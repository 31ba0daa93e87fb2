// The combined look-up: "tries the filter, then the tray, then the file".
ghost use Rattle.std.specs.Prelude.{◌≡◌, ◌&&◌, ◌≤◌, length};
ghost use Rattle.placement.specs.Lent.{held};
ghost use Rattle.calls.specs.Answers.{refusal_number, sought};
ghost use Rattle.calls.specs.Shape.{admission_number};
ghost use Rattle.calls.specs.Calls.{file_lengths};
ghost use Rattle.reports.specs.Bits.{passes};
ghost use Rattle.reports.specs.Reports.{reported as Reports·reported};
ghost use Rattle.reports.specs.TrayCalls.{combined_of, plain_answer, answered_unless};
ghost use Rattle.tray.specs.Lent.{tray_of};
ghost use Rattle.tray_list.specs.Latest.{or_plain};
ghost use Rattle.tray.specs.Refusals.{tray_lengths, screen_refusal, scanned};

use crate::adding::{position_of, tray_fits};
use calls::answers::{Found, Refusal};
use calls::records::GrowthRecord;
use hashing::Parameters;
use reports::Report;
use tray_list::{Latest, latest_on};

// The refusal, if any, and how many reports are to be read: none if the filter says "no".
#[derive(Clone, Copy)]
struct Screened {
    admission: Result<(), Refusal>,
    reports: usize,
}

pub fn look_up(
    parameters: Parameters,
    growth: GrowthRecord,
    separators: &[u8],
    numbers: &[u32],
    words: &[u64],
    owners: &[u8],
    reports: &[Report],
    count: u32,
    filter: &[u64],
    number: u32,
) -> Found
    ensures answer { sought result ≡ combined_of parameters growth (held separators.now numbers.now words.now owners.now) (tray_of reports.now count) filter.now number }
{
    let screened = screen(
        parameters,
        growth,
        separators.len(),
        numbers.len(),
        words.len(),
        owners.len(),
        reports.len(),
        count,
        filter,
        number,
    );
    let found = latest_on(reports, screened.reports, number);
    answer(
        parameters, growth, separators, numbers, words, owners, number, screened, found,
    )
}

// Refusals 1, 2 and 3, and the filter's answer.
fn screen(
    parameters: Parameters,
    growth: GrowthRecord,
    separators: usize,
    numbers: usize,
    words: usize,
    owners: usize,
    places: usize,
    count: u32,
    filter: &[u64],
    number: u32,
) -> Screened
    ensures { (admission_number result.admission ≡ screen_refusal parameters growth
        (file_lengths parameters separators numbers words owners && tray_lengths places count (length filter.now)) number)
        × ((result.reports ≡ scanned (admission_number result.admission) (passes parameters.multiplier filter.now number) count) × (result.reports ≤ places)) }
{
    let fits = all_fit(
        call_guard::file_fits(parameters, separators, numbers, words, owners),
        tray_fits(places, count, filter.len()),
    );
    if let Err(refusal) = call_guard::admit(parameters, growth, fits) {
        return turn_away(refusal);
    }
    if !pages::position::number_valid(number) {
        return turn_away(Refusal::BadNumber);
    }
    let admission = Ok(());
    if !tray_filter::passes(parameters.multiplier, filter, number) {
        return Screened {
            admission,
            reports: 0,
        };
    }
    Screened {
        admission,
        reports: count as usize,
    }
}

pub fn all_fit(file: bool, tray: bool) -> bool
    ensures { result ≡ (file && tray) }
{
    if !file {
        return false;
    }
    tray
}

fn turn_away(refusal: Refusal) -> Screened
    ensures { (admission_number result.admission ≡ refusal_number refusal) × (result.reports ≡ 0) }
{
    let admission = Err(refusal);
    Screened {
        admission,
        reports: 0,
    }
}

// The refusal, the report's answer, or the file's.
fn answer(
    parameters: Parameters,
    growth: GrowthRecord,
    separators: &[u8],
    numbers: &[u32],
    words: &[u64],
    owners: &[u8],
    number: u32,
    screened: Screened,
    found: Latest,
) -> Found
    requires { admission_number screened.admission ≤ 3 }
    ensures { sought result ≡ answered_unless (admission_number screened.admission)
        (or_plain parameters.pages found (plain_answer parameters growth (held separators.now numbers.now words.now owners.now) number)) }
{
    let admission = screened.admission;
    if let Err(refusal) = admission {
        return Found::Refused(refusal, 0);
    }
    if found.found {
        return reported(parameters.pages, found.report);
    }
    starfile::look_up(
        parameters, growth, separators, numbers, words, owners, number,
    )
}

// "a report so found answers (a removal "none"), with page M, place 0"
fn reported(pages: u32, report: Report) -> Found
    ensures { sought result ≡ Reports·reported pages report }
{
    if report.removed != 0 {
        return Found::Absent(pages, 0);
    }
    Found::At(pages, 0, position_of(report))
}
