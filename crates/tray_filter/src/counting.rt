// "The screen shows how many of the filter's bits are set": document 02 (xi).
ghost use Rattle.std.specs.Prelude.{◌≡◌, length, ◌≤◌};
ghost use Rattle.reports.specs.Bits.{ones, bits_set, bits_of};
ghost use Rattle.tray_filter.specs.Shown.{shown};

use calls::answers::Refusal;

#[derive(Clone, Copy)]
pub enum Shown {
    Bits(u32),
    Refused(Refusal),
}

pub fn bits(filter: &[u64]) -> Shown
    ensures answer { shown result ≡ bits_of filter.now }
{
    if filter.len() != 32 {
        return Shown::Refused(Refusal::BadLength);
    }
    Shown::Bits(count_ones(filter))
}

fn count_ones(filter: &[u64]) -> u32
    requires { length filter.now ≡ 32 }
    ensures { result ≡ bits_set filter.now }
{
    filter.iter().map(|word| ones_of(*word)).sum()
}

fn ones_of(word: u64) -> u32
    ensures { result ≡ ones word 64 }
{
    u64::count_ones(word)
}
