// A report on a star that its named page holds: a change of its position, or its removal.
ghost use Rattle.std.specs.Prelude.{◌≡◌, true};
ghost use Rattle.placement.specs.Ready.{Ready, Pooled};
ghost use Rattle.calls.specs.Answers.{placed};
ghost use Rattle.report_filing.specs.Filing.{Sought, ReportFiled};
ghost use Rattle.placement.specs.Lent.{held, before, after};

use crate::positions::position_of;
use call_guard::may_alter;
use calls::answers::{Placed, Refusal};
use hashing::Geometry;
use named_page::Named;
use outcome_answer::placed_from;
use removal_reach::HeldStar;
use reports::Report;

pub fn file_held(
    table: &[u32; 90],
    geometry: Geometry,
    separators: &mut [u8],
    numbers: &mut [u32],
    words: &mut [u64],
    owners: &mut [u8],
    poolnumbers: &mut [u32],
    poolwords: &mut [u64],
    poolowners: &mut [u8],
    report: Report,
    named: Named,
) -> Placed
    requires ready { Ready geometry table.now (held separators.old numbers.old words.old owners.old) }
    requires pooled { Pooled geometry.parameters poolnumbers.old poolwords.old poolowners.old }
    requires sought { Sought geometry.parameters geometry.growth (held separators.old numbers.old words.old owners.old) poolnumbers.old report named }
    requires held_value { named.held ≡ true }
    ensures { ReportFiled geometry.parameters geometry.growth (before separators numbers words owners) report (placed result) (after separators numbers words owners) }
{
    if !may_alter(report.owner, named.owner) {
        return Placed::Refused(Refusal::NotOwner, named.place);
    }
    if report.removed != 0 {
        let star = HeldStar {
            number: report.number,
            home: named.home,
            page: named.page,
            place: named.place,
        };
        return placed_from(
            removal_reach::remove_held(
                table,
                geometry,
                separators,
                numbers,
                words,
                owners,
                poolnumbers,
                poolwords,
                poolowners,
                star,
                geometry.parameters.pages as usize,
            ),
            named.place,
        );
    }
    let item = named.item;
    words[item] = pages::position::pack(position_of(report));
    let page = named.page as u32;
    Placed::On(page, named.place)
}
