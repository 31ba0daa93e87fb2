// One report: the call that it made, below that call's guard.
ghost use Rattle.placement.specs.Ready.{Ready, Pooled};
ghost use Rattle.calls.specs.Answers.{placed};
ghost use Rattle.report_filing.specs.Filing.{ReportFiled};
ghost use Rattle.placement.specs.Lent.{held, before, after};

use crate::held_star::file_held;
use crate::new_star::file_new;
use crate::positions::position_fits;
use calls::answers::{Placed, Refusal};
use hashing::Geometry;
use named_page::find_kept;
use reports::Report;

// The named page is searched once. A removal of a star not held does nothing.
pub fn file_report(
    table: &[u32; 90],
    geometry: Geometry,
    separators: &mut [u8],
    numbers: &mut [u32],
    words: &mut [u64],
    owners: &mut [u8],
    poolnumbers: &mut [u32],
    poolwords: &mut [u64],
    poolowners: &mut [u8],
    report: Report,
) -> Placed
    requires ready { Ready geometry table.now (held separators.old numbers.old words.old owners.old) }
    requires pooled { Pooled geometry.parameters poolnumbers.old poolwords.old poolowners.old }
    ensures { ReportFiled geometry.parameters geometry.growth (before separators numbers words owners) report (placed result) (after separators numbers words owners) }
{
    if !pages::position::number_valid(report.number) {
        return Placed::Refused(Refusal::BadNumber, 0);
    }
    if !position_fits(report) {
        return Placed::Refused(Refusal::BadPosition, 0);
    }
    let named = find_kept(
        table,
        geometry,
        separators,
        numbers,
        words,
        owners,
        poolnumbers,
        report.number,
    );
    let page = named.page as u32;
    if !named.readable {
        return Placed::Refused(Refusal::Damaged(page), 0);
    }
    if named.held {
        return file_held(
            table,
            geometry,
            separators,
            numbers,
            words,
            owners,
            poolnumbers,
            poolwords,
            poolowners,
            report,
            named,
        );
    }
    if report.removed != 0 {
        return Placed::On(0, 0);
    }
    file_new(
        table,
        geometry,
        separators,
        numbers,
        words,
        owners,
        poolnumbers,
        poolwords,
        poolowners,
        report,
        named,
    )
}
