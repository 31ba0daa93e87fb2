// What is to be done to the file.
ghost use Rattle.std.specs.Prelude.{◌≡◌};
ghost use Rattle.decision.specs.Carried.{outcome_of_lem};

use page_plan::Outcome;

// The first unsound page; a star is carried past the last page; a page and the place on it where one star is put in or taken out; or
// the planned stretch, its first page and how many it has, with the page that the call answers.
#[derive(Clone, Copy)]
pub enum Decision {
    Unsound(usize),
    Overflows,
    Put(usize, usize),
    Take(usize, usize),
    Planned(usize, usize, usize),
}

// A star to be entered: its home, the page that the separators name for it, and the place where it was sought there.
#[derive(Clone, Copy)]
pub struct Newcomer {
    pub number: u32,
    pub word: u64,
    pub owner: u8,
    pub home: u32,
    pub place: u32,
    pub page: usize,
}

// What the whole call answers. Apart from carrying it out: an answer handed on in memory, whose parts were just stored, is waited for.
pub fn outcome_of(decision: Decision) -> Outcome
    ensures { result ≡ outcome_of_lem decision }
{
    match decision {
        Decision::Unsound(page) => Outcome::Unsound(page),
        Decision::Overflows => Outcome::Overflows,
        Decision::Put(page, _) => Outcome::On(page),
        Decision::Take(page, _) => Outcome::On(page),
        Decision::Planned(_, _, page) => Outcome::On(page),
    }
}
