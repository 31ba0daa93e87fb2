// The tray of reports and its filter. The functions that hold the list are thin: each calls crate tray and answers in numbers. They take
// parameters and growth record by value as structs.
ghost use Rattle.std.specs.Prelude.{◌≡◌};
ghost use Rattle.placement.specs.Lent.{held, before, after};
ghost use Rattle.calls.specs.Answers.{sought};
ghost use Rattle.calls.specs.Lent.{pool_before, pool_after_lem};
ghost use Rattle.reports.specs.Bits.{bits_of};
ghost use Rattle.reports.specs.Filing.{filing_of};
ghost use Rattle.reports.specs.TrayCalls.{add_of, combined_of};
ghost use Rattle.tray.specs.Lent.{tray_of};
ghost use Rattle.tray_filter.specs.Shown.{shown as Shown·shown};
ghost use Rattle.heatherplane.specs.Reply.{reply_of_lem};
ghost use Rattle.heatherplane.specs.Trays.{RepliesAdding, RepliesFiling, parameters_in, record_in, bits_reply_lem};
ghost use Rattle.heatherplane.specs.Shape.{asked_of_lem, added_reply_lem, filed_reply_lem};

use crate::replies::{Growth, Reply, record_of, reply_of};
use calls::answers::{Found, Placed, placed_answer, sought_answer};
use calls::records::GrowthRecord;
use reports::Report;
use tray_filter::Shown;

// The papers' refusal number, 0 if accepted, and the count after the call.
#[repr(C)]
#[derive(Clone, Copy)]
pub struct Added {
    pub refusal: u32,
    pub count: u32,
}

// The refusal of the call or of the report at which it stopped, with its page and place, how many reports were filed, and the count after the call.
#[repr(C)]
#[derive(Clone, Copy)]
pub struct Filed {
    pub refusal: u32,
    pub page: u32,
    pub place: u32,
    pub filed: u32,
    pub count: u32,
}

// The refusal number, 0 if accepted, and how many of a filter's bits are set.
#[repr(C)]
#[derive(Clone, Copy)]
pub struct Bits {
    pub refusal: u32,
    pub bits: u32,
}

// A file's parameters, with document 01's letters b, N, n0, s, k, A, M, and the multiplier.
#[repr(C)]
#[derive(Clone, Copy)]
pub struct Parameters {
    pub places: u32,
    pub groups: u32,
    pub width: u32,
    pub step: u32,
    pub bits: u32,
    pub load: u32,
    pub pages: u32,
    pub multiplier: u32,
}

// What a call's parameters and growth record in numbers stand for.
#[derive(Clone, Copy)]
struct Asked {
    parameters: hashing::Parameters,
    growth: GrowthRecord,
}

#[unsafe(no_mangle)]
pub extern "C" fn heatherplane_add_report(
    parameters: Parameters,
    growth: Growth,
    reports: &mut [Report],
    count: u32,
    filter: &mut [u64],
    report: Report,
) -> Added
    ensures { RepliesAdding (add_of (parameters_in parameters) (record_in growth)
        (tray_of reports.old count) filter.old report) result reports.new filter.new }
{
    let asked = asked_of(parameters, growth);
    let added = tray::add(
        asked.parameters,
        asked.growth,
        reports,
        count,
        filter,
        report,
    );
    added_reply(added)
}

// "A combined look-up tries the filter, then the tray, then the file"
#[unsafe(no_mangle)]
pub extern "C" fn heatherplane_look_up_with_tray(
    parameters: Parameters,
    growth: Growth,
    separators: &[u8],
    numbers: &[u32],
    words: &[u64],
    owners: &[u8],
    reports: &[Report],
    count: u32,
    filter: &[u64],
    number: u32,
) -> Reply
    ensures { result ≡ reply_of_lem (combined_of (parameters_in parameters) (record_in growth)
        (held separators.now numbers.now words.now owners.now) (tray_of reports.now count) filter.now number) (record_in growth) }
{
    let asked = asked_of(parameters, growth);
    let found = tray::look_up(
        asked.parameters,
        asked.growth,
        separators,
        numbers,
        words,
        owners,
        reports,
        count,
        filter,
        number,
    );
    found_reply(found, asked.growth)
}

// "Filing works through the reports in order, each for its own owner"
#[unsafe(no_mangle)]
pub extern "C" fn heatherplane_file_reports(
    parameters: Parameters,
    growth: Growth,
    separators: &mut [u8],
    numbers: &mut [u32],
    words: &mut [u64],
    owners: &mut [u8],
    poolnumbers: &mut [u32],
    poolwords: &mut [u64],
    poolowners: &mut [u8],
    reports: &mut [Report],
    count: u32,
    filter: &mut [u64],
) -> Filed
    ensures { RepliesFiling (filing_of (parameters_in parameters) (record_in growth)
        (before separators numbers words owners) (pool_before poolnumbers poolwords poolowners) (tray_of reports.old count) filter.old) result
        (after separators numbers words owners) (pool_after_lem poolnumbers poolwords poolowners) reports.new filter.new }
{
    let asked = asked_of(parameters, growth);
    let filing = tray::file_tray(
        asked.parameters,
        asked.growth,
        separators,
        numbers,
        words,
        owners,
        poolnumbers,
        poolwords,
        poolowners,
        reports,
        count,
        filter,
    );
    filed_reply(filing)
}

// "The screen shows how many of the filter's bits are set."
#[unsafe(no_mangle)]
pub extern "C" fn heatherplane_filter_bits(filter: &[u64]) -> Bits
    ensures { result ≡ bits_reply_lem (bits_of filter.now) }
{
    bits_reply(tray_filter::bits(filter))
}

fn asked_of(parameters: Parameters, growth: Growth) -> Asked
    ensures { result ≡ asked_of_lem parameters growth }
{
    let kept = record_of(
        growth.expansions,
        growth.expanded,
        growth.growing,
        growth.steps,
    );
    let values = hashing::Parameters {
        places: parameters.places,
        groups: parameters.groups,
        width: parameters.width,
        step: parameters.step,
        bits: parameters.bits,
        load: parameters.load,
        pages: parameters.pages,
        multiplier: parameters.multiplier,
    };
    Asked {
        parameters: values,
        growth: kept,
    }
}

fn bits_reply(shown: Shown) -> Bits
    ensures { result ≡ bits_reply_lem (Shown·shown shown) }
{
    match shown {
        Shown::Bits(bits) => Bits { refusal: 0, bits },
        Shown::Refused(refusal) => {
            let answer = placed_answer(Placed::Refused(refusal, 0));
            Bits {
                refusal: answer.refusal,
                bits: 0,
            }
        }
    }
}

fn added_reply(added: tray::Added) -> Added
    ensures { result ≡ added_reply_lem added }
{
    let placed = added.answer;
    let answer = placed_answer(placed);
    Added {
        refusal: answer.refusal,
        count: added.count,
    }
}

fn filed_reply(filing: tray::Filing) -> Filed
    ensures { result ≡ filed_reply_lem filing }
{
    let placed = filing.answer;
    let answer = placed_answer(placed);
    Filed {
        refusal: answer.refusal,
        page: answer.page,
        place: answer.place,
        filed: filing.filed,
        count: filing.count,
    }
}

fn found_reply(found: Found, growth: GrowthRecord) -> Reply
    ensures { result ≡ reply_of_lem (sought found) growth }
{
    reply_of(sought_answer(found), growth)
}
