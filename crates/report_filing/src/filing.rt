// The reports of a tray in order.
ghost use Rattle.std.specs.Prelude.{◌≤◌, take};
ghost use Rattle.placement.specs.Ready.{Pooled};
ghost use Rattle.calls.specs.Answers.{cleared};
ghost use Rattle.calls.specs.Shape.{Admitted};
ghost use Rattle.calls.specs.Records.{closed_record};
ghost use Rattle.reports.specs.Filing.{filed_from};
ghost use Rattle.report_filing.specs.Filing.{Files};
ghost use Rattle.placement.specs.Lent.{held, before, after};
ghost use Rattle.calls.specs.Lent.{pool_before};

use crate::one_report::file_report;
use calls::answers::Placed;
use hashing::Geometry;
use reports::Report;

// How many reports were filed, and the refusal that stopped the filing, or page 0.
#[derive(Clone, Copy)]
pub struct Filed {
    pub filed: u32,
    pub answer: Placed,
}

// Files the first reports, each for its own owner, until one is refused. No growth is open. The pool is left in any state.
pub fn file_reports(
    geometry: Geometry,
    separators: &mut [u8],
    numbers: &mut [u32],
    words: &mut [u64],
    owners: &mut [u8],
    poolnumbers: &mut [u32],
    poolwords: &mut [u64],
    poolowners: &mut [u8],
    reports: [Report; 256],
    count: u32,
) -> Filed
    requires admitted { Admitted geometry.parameters geometry.growth (held separators.old numbers.old words.old owners.old) }
    requires pooled { Pooled geometry.parameters poolnumbers.old poolwords.old poolowners.old }
    requires count_bound { count ≤ 256 }
    ensures { Files (filed_from geometry.parameters (closed_record geometry.growth) (before separators numbers words owners)
        (cleared (pool_before poolnumbers poolwords poolowners)) (take count reports)) result (after separators numbers words owners) }
{
    let table = generator::first_multipliers(geometry.parameters.multiplier);
    for filed in 0..count {
        let report = reports[filed as usize];
        let answer = file_report(
            &table,
            geometry,
            separators,
            numbers,
            words,
            owners,
            poolnumbers,
            poolwords,
            poolowners,
            report,
        );
        if let Placed::Refused(refusal, place) = answer {
            return Filed {
                filed,
                answer: Placed::Refused(refusal, place),
            };
        }
    }
    Filed {
        filed: count,
        answer: Placed::On(0, 0),
    }
}
