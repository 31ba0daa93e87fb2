// The position of a report.
ghost use Rattle.std.specs.Prelude.{◌≡◌, ◌||◌};
ghost use Rattle.pages.specs.Position.{valid_position};
ghost use Rattle.reports.specs.Reports.{is_removal, reported_position};

use pages::position::Position;
use reports::Report;

pub fn position_of(report: Report) -> Position
    ensures { result ≡ reported_position report }
{
    Position {
        ra: report.ra,
        dec: report.dec,
    }
}

// It is unread in a removal.
pub fn position_fits(report: Report) -> bool
    ensures { result ≡ (is_removal report || valid_position (reported_position report)) }
{
    if report.removed != 0 {
        return true;
    }
    pages::position::position_valid(position_of(report))
}
