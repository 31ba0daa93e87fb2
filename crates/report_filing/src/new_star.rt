// A report of a star that its named page does not hold: its entry.
ghost use Rattle.std.specs.Prelude.{◌≡◌, false};
ghost use Rattle.placement.specs.Ready.{Ready, Pooled};
ghost use Rattle.calls.specs.Answers.{placed};
ghost use Rattle.report_filing.specs.Filing.{Sought, ReportFiled};
ghost use Rattle.placement.specs.Lent.{held, before, after};

use crate::positions::position_of;
use calls::answers::Placed;
use decision::Newcomer;
use hashing::Geometry;
use named_page::Named;
use outcome_answer::placed_from;
use reports::Report;

pub fn file_new(
    table: &[u32; 90],
    geometry: Geometry,
    separators: &mut [u8],
    numbers: &mut [u32],
    words: &mut [u64],
    owners: &mut [u8],
    poolnumbers: &mut [u32],
    poolwords: &mut [u64],
    poolowners: &mut [u8],
    report: Report,
    named: Named,
) -> Placed
    requires ready { Ready geometry table.now (held separators.old numbers.old words.old owners.old) }
    requires pooled { Pooled geometry.parameters poolnumbers.old poolwords.old poolowners.old }
    requires sought { Sought geometry.parameters geometry.growth (held separators.old numbers.old words.old owners.old) poolnumbers.old report named }
    requires held_value { (named.held ≡ false) × (report.removed ≡ 0) }
    ensures { ReportFiled geometry.parameters geometry.growth (before separators numbers words owners) report (placed result) (after separators numbers words owners) }
{
    let word = pages::position::pack(position_of(report));
    let star = Newcomer {
        number: report.number,
        word,
        owner: report.owner,
        home: named.home,
        place: named.place,
        page: named.page,
    };
    placed_from(
        entry_reach::enter_star(
            table,
            geometry,
            separators,
            numbers,
            words,
            owners,
            poolnumbers,
            poolwords,
            poolowners,
            star,
            geometry.parameters.pages as usize,
        ),
        named.place,
    )
}
