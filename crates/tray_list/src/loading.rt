// The list taken in as one value.
ghost use Rattle.std.specs.Prelude.{◌≡◌, [], ◌≤◌, length, take};
ghost use Rattle.tray_list.specs.Loading.{loaded};

use reports::Report;

// The first reports of the list, zeros behind them.
pub fn load(reports: &[Report], count: usize) -> [Report; 256]
    requires { (count ≤ length reports.now) × (count ≤ 256) }
    ensures { result ≡ loaded (take count reports.now) }
{
    let mut copy = blanks();
    copy[..count].copy_from_slice(&reports[..count]);
    copy
}

fn blanks() -> [Report; 256]
    ensures { result ≡ loaded [] }
{
    let report = Report {
        number: 0,
        ra: 0,
        dec: 0,
        owner: 0,
        removed: 0,
    };
    [report; 256]
}
