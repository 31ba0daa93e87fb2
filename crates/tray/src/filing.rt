// Filing the reports of the tray. The list is taken in as one value and closed up afterwards; all between is plain code.
ghost use Rattle.std.specs.Prelude.{◌≡◌, true, List, ◌+◌, ◌≤◌, length, take};
ghost use Rattle.generator.specs.Generator.{valid_multiplier};
ghost use Rattle.placement.specs.Lent.{held, before, after};
ghost use Rattle.placement.specs.Ready.{Pooled};
ghost use Rattle.calls.specs.Answers.{cleared};
ghost use Rattle.calls.specs.Lent.{pool_before, pool_after_lem};
ghost use Rattle.calls.specs.Shape.{Admitted};
ghost use Rattle.calls.specs.Records.{closed_record};
ghost use Rattle.reports.specs.Filing.{filed_from, filing_of};
ghost use Rattle.tray_list.specs.Closing.{closed_to};
ghost use Rattle.tray_list.specs.Loading.{loaded as Loading·loaded};
ghost use Rattle.tray.specs.Lent.{tray_of};
ghost use Rattle.tray.specs.Filing.{FilesTray};
ghost use Rattle.tray.specs.Shape.{limit_of, not_closed, FiledBelow};

use crate::adding::tray_fits;
use crate::seeking::all_fit;
use calls::answers::{Placed, Refusal};
use calls::records::GrowthRecord;
use hashing::{Geometry, Parameters};
use reports::Report;
use tray_list::{close_up, load};

// "answers the number filed and that refusal, if any", with the count after the call.
#[derive(Clone, Copy)]
pub struct Filing {
    pub answer: Placed,
    pub filed: u32,
    pub count: u32,
}

// The answer, and what becomes of the list: the `stay` reports from place `from` on close up over `places` places; none if the call is refused.
#[derive(Clone, Copy)]
pub struct Closing {
    pub filing: Filing,
    pub from: usize,
    pub stay: usize,
    pub places: usize,
}

// "Filing works through the reports in order, each for its own owner"
pub fn file_tray(
    parameters: Parameters,
    growth: GrowthRecord,
    separators: &mut [u8],
    numbers: &mut [u32],
    words: &mut [u64],
    owners: &mut [u8],
    poolnumbers: &mut [u32],
    poolwords: &mut [u64],
    poolowners: &mut [u8],
    reports: &mut [Report],
    count: u32,
    filter: &mut [u64],
) -> Filing
    ensures leaves { FilesTray (filing_of parameters growth (before separators numbers words owners) (pool_before poolnumbers poolwords poolowners)
        (tray_of reports.old count) filter.old)
        result.filed result.answer result.count (after separators numbers words owners) (pool_after_lem poolnumbers poolwords poolowners) reports.new filter.new }
{
    let places = reports.len();
    let loaded = load(reports, limit(places, count));
    let closing = file_loaded(
        parameters,
        growth,
        separators,
        numbers,
        words,
        owners,
        poolnumbers,
        poolwords,
        poolowners,
        filter,
        loaded,
        places,
        count,
    );
    close_up(reports, closing.from, closing.stay, closing.places);
    closing.filing
}

// How many reports of the list are taken in.
fn limit(places: usize, count: u32) -> usize
    ensures { (result ≡ limit_of places count) × ((result ≤ places) × (result ≤ 256)) }
{
    if places != 256 {
        return 0;
    }
    if 256 < count {
        return 0;
    }
    count as usize
}

// Past the filing's own refusals: the reports are filed, the pool cleared once, the filter made anew.
fn file_admitted(
    geometry: Geometry,
    separators: &mut [u8],
    numbers: &mut [u32],
    words: &mut [u64],
    owners: &mut [u8],
    poolnumbers: &mut [u32],
    poolwords: &mut [u64],
    poolowners: &mut [u8],
    filter: &mut [u64],
    loaded: [Report; 256],
    count: u32,
) -> Filing
    requires admitted { Admitted geometry.parameters geometry.growth (held separators.old numbers.old words.old owners.old) }
    requires pooled { Pooled geometry.parameters poolnumbers.old poolwords.old poolowners.old }
    requires multiplier_value { (valid_multiplier geometry.parameters.multiplier ≡ true) × ((length filter.old ≡ 32) × (count ≤ 256)) }
    ensures { FiledBelow geometry.parameters.multiplier count loaded
        (filed_from geometry.parameters (closed_record geometry.growth) (before separators numbers words owners) (cleared (pool_before poolnumbers poolwords poolowners)) (take count loaded))
        (cleared (pool_before poolnumbers poolwords poolowners)) result (after separators numbers words owners) (pool_after_lem poolnumbers poolwords poolowners) filter.new }
{
    let filed = report_filing::file_reports(
        geometry,
        separators,
        numbers,
        words,
        owners,
        poolnumbers,
        poolwords,
        poolowners,
        loaded,
        count,
    );
    plan_transfer::clear(poolnumbers, poolwords, poolowners);
    tray_filter::remake(
        geometry.parameters.multiplier,
        filter,
        loaded,
        filed.filed as usize,
        count as usize,
    );
    let answer = filed.answer;
    Filing {
        answer,
        filed: filed.filed,
        count: count - filed.filed,
    }
}

// What the call does to a list of `places` reports of which `loaded` is the copy; it does all but that.
fn file_loaded(
    parameters: Parameters,
    growth: GrowthRecord,
    separators: &mut [u8],
    numbers: &mut [u32],
    words: &mut [u64],
    owners: &mut [u8],
    poolnumbers: &mut [u32],
    poolwords: &mut [u64],
    poolowners: &mut [u8],
    filter: &mut [u64],
    loaded: [Report; 256],
    places: usize,
    count: u32,
) -> Closing
    ensures stay_bound { (result.from + result.stay ≤ result.places) × (result.places ≤ places) }
    ensures files_tray { (reports : List Report) → length reports ≡ places → loaded ≡ Loading·loaded (take (limit_of places count) reports)
        → FilesTray (filing_of parameters growth (before separators numbers words owners) (pool_before poolnumbers poolwords poolowners) (tray_of reports count) filter.old)
        result.filing.filed result.filing.answer result.filing.count (after separators numbers words owners) (pool_after_lem poolnumbers poolwords poolowners)
        (closed_to result.from result.stay result.places reports) filter.new }
{
    let lent = call_guard::all_fit(
        parameters,
        separators.len(),
        numbers.len(),
        words.len(),
        owners.len(),
        poolnumbers.len(),
        poolwords.len(),
        poolowners.len(),
    );
    let fits = all_fit(lent, tray_fits(places, count, filter.len()));
    if let Err(refusal) = call_guard::admit(parameters, growth, fits) {
        return not_filed(refusal, count);
    }
    if growth.growing {
        plan_transfer::clear(poolnumbers, poolwords, poolowners);
        return not_filed(Refusal::OutOfTurn, count);
    }
    let state = growth.state;
    let geometry = Geometry {
        parameters,
        growth: state,
    };
    let filing = file_admitted(
        geometry,
        separators,
        numbers,
        words,
        owners,
        poolnumbers,
        poolwords,
        poolowners,
        filter,
        loaded,
        count,
    );
    Closing {
        filing,
        from: filing.filed as usize,
        stay: filing.count as usize,
        places,
    }
}

// Refused: the list, its count with it, stays.
fn not_filed(refusal: Refusal, count: u32) -> Closing
    ensures { result ≡ not_closed refusal count }
{
    let answer = Placed::Refused(refusal, 0);
    let filing = Filing {
        answer,
        filed: 0,
        count,
    };
    Closing {
        filing,
        from: 0,
        stay: 0,
        places: 0,
    }
}
