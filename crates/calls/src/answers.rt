// What the calls answer. specs/Answers.antt gives the papers' number and values for each case.
ghost use Rattle.std.specs.Prelude.{◌≡◌};
ghost use Rattle.calls.specs.Answers.{refusal_number, refusal_page, spotted, counted, refused_by, placed, sought, due_said, checked};

use hashing::Growth;
use pages::position::Position;

#[derive(Clone, Copy)]
pub enum Refusal {
    BadParameters,
    BadLength,
    BadNumber,
    BadPosition,
    Damaged(u32),
    Held,
    NotHeld,
    Full,
    Ungrown,
    // a header and length that no table has; a row out of order or range, or a pad that is not 0
    BadHeader,
    BadRows,
    ShortOutput,
    NotOwner,
    TrayFull,
    // pages that cannot be mended
    BadContents,
    // a growth is open and the call writes the file, or none is open and the call is a step
    OutOfTurn,
}

// A page, and "the place found on the page first named (0 if refused before that search)": document 02 (ii).
#[derive(Clone, Copy)]
pub enum Placed {
    On(u32, u32),
    Refused(Refusal, u32),
}

#[derive(Clone, Copy)]
pub enum Found {
    At(u32, u32, Position),
    Absent(u32, u32),
    Refused(Refusal, u32),
}

// Whether growth is due, with the count of stars.
#[derive(Clone, Copy)]
pub enum Due {
    Yes(u32),
    No(u32),
    Refused(Refusal),
}

// "Its refusal names the place too": with the page of Damaged, or 0.
#[derive(Clone, Copy)]
pub enum Checked {
    Clean,
    Refused(Refusal, u32),
}

// The answer of a call that makes or steps the growth state, with that state.
#[derive(Clone, Copy)]
pub struct Grown {
    pub answer: Placed,
    pub growth: Growth,
}

// Document 01's number (0 if accepted) and values; a value that a call does not name is 0, no or (0, 0).
#[derive(Clone, Copy)]
pub struct Answer {
    pub refusal: u32,
    pub page: u32,
    pub place: u32,
    pub found: bool,
    pub position: Position,
    pub due: bool,
    pub stars: u32,
}

pub fn placed_answer(answer: Placed) -> Answer
    ensures { result ≡ placed answer }
{
    match answer {
        Placed::On(page, place) => at_spot(0, page, place),
        Placed::Refused(refusal, place) => refused_answer(refusal, place),
    }
}

pub fn sought_answer(answer: Found) -> Answer
    ensures { result ≡ sought answer }
{
    match answer {
        Found::At(page, place, position) => Answer {
            found: true,
            position,
            ..at_spot(0, page, place)
        },
        Found::Absent(page, place) => at_spot(0, page, place),
        Found::Refused(refusal, place) => refused_answer(refusal, place),
    }
}

pub fn due_answer(answer: Due) -> Answer
    ensures { result ≡ due_said answer }
{
    match answer {
        Due::Yes(stars) => count_answer(true, stars),
        Due::No(stars) => count_answer(false, stars),
        Due::Refused(refusal) => refused_answer(refusal, 0),
    }
}

pub fn checked_answer(answer: Checked) -> Answer
    ensures { result ≡ checked answer }
{
    match answer {
        Checked::Clean => at_spot(0, 0, 0),
        Checked::Refused(refusal, place) => refused_answer(refusal, place),
    }
}

// A refusal's number, and its page.
fn number_of(refusal: Refusal) -> (u32, u32)
    ensures { (result.0 ≡ refusal_number refusal) × (result.1 ≡ refusal_page refusal) }
{
    match refusal {
        Refusal::BadParameters => (1, 0),
        Refusal::BadLength => (2, 0),
        Refusal::BadNumber => (3, 0),
        Refusal::BadPosition => (4, 0),
        Refusal::Damaged(page) => (5, page),
        Refusal::Held => (6, 0),
        Refusal::NotHeld => (7, 0),
        Refusal::Full => (8, 0),
        Refusal::Ungrown => (9, 0),
        Refusal::BadHeader => (10, 0),
        Refusal::BadRows => (11, 0),
        Refusal::ShortOutput => (12, 0),
        Refusal::NotOwner => (13, 0),
        Refusal::TrayFull => (14, 0),
        Refusal::BadContents => (15, 0),
        Refusal::OutOfTurn => (16, 0),
    }
}

fn refused_answer(refusal: Refusal, place: u32) -> Answer
    ensures { result ≡ refused_by refusal place }
{
    let (number, page) = number_of(refusal);
    at_spot(number, page, place)
}

fn at_spot(refusal: u32, page: u32, place: u32) -> Answer
    ensures { result ≡ spotted refusal page place }
{
    let position = Position { ra: 0, dec: 0 };
    Answer {
        refusal,
        page,
        place,
        found: false,
        position,
        due: false,
        stars: 0,
    }
}

fn count_answer(due: bool, stars: u32) -> Answer
    ensures { result ≡ counted due stars }
{
    Answer {
        due,
        stars,
        ..at_spot(0, 0, 0)
    }
}
