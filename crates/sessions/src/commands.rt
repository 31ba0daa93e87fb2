// The star file of the program, and its reply to each command.
ghost use Rattle.std.specs.Prelude.{◌≡◌};
ghost use Rattle.lines.specs.declared.Command.TheVariants.{Enter, LookUp, Remove, Grow};
ghost use Rattle.sessions.specs.Commands.{starline, new_file, state_in, unless_refused_lem, placed_reply_lem, found_reply_lem, reply_to};
ghost use Rattle.sessions.specs.Shape.{Follows};

use calls::answers::{Answer, placed_answer, sought_answer};
use calls::records::GrowthRecord;
use hashing::{Growth, Parameters};
use lines::{Command, Reply};
use pages::position::Position;

// The program calls for the institute.
const INSTITUTE: u8 = 0;

// M = 8 pages of b = 2 places. The pool of a call is made for that call.
#[derive(Clone, Copy)]
pub struct StarFile {
    pub growth: Growth,
    pub separators: [u8; 8],
    pub numbers: [u32; 16],
    pub words: [u64; 16],
    pub owners: [u8; 16],
}

#[derive(Clone, Copy)]
pub struct Replied {
    pub reply: Reply,
    pub file: StarFile,
}

fn parameters() -> Parameters
    ensures { result ≡ starline }
{
    Parameters {
        places: 2,
        groups: 2,
        width: 2,
        step: 1,
        bits: 8,
        load: 80,
        pages: 8,
        multiplier: 16807,
    }
}

pub fn empty_file() -> StarFile
    ensures { state_in result ≡ new_file }
{
    let mut separators = [0u8; 8];
    let mut numbers = [0u32; 16];
    let mut words = [0u64; 16];
    let mut owners = [0u8; 16];
    let made = starfile::make(
        parameters(),
        &mut separators,
        &mut numbers,
        &mut words,
        &mut owners,
    );
    let record = made.growth;
    let growth = record.state;
    StarFile {
        growth,
        separators,
        numbers,
        words,
        owners,
    }
}

pub fn follow(file: StarFile, command: Command) -> Replied
    ensures { Follows (state_in file) command result }
{
    match command {
        Command::Enter { number, ra, dec } => enter(file, number, Position { ra, dec }),
        Command::LookUp(number) => Replied {
            reply: look_up(file, number),
            file,
        },
        Command::Remove(number) => remove(file, number),
        Command::Grow => grow(file),
        Command::Bad => Replied {
            reply: Reply::Malformed,
            file,
        },
    }
}

fn enter(file: StarFile, number: u32, position: Position) -> Replied
    ensures { Follows (state_in file) (Enter number position.ra position.dec) result }
{
    let growth = file.growth;
    let mut separators = file.separators;
    let mut numbers = file.numbers;
    let mut words = file.words;
    let mut owners = file.owners;
    let mut poolnumbers = [0u32; 16];
    let mut poolwords = [0u64; 16];
    let mut poolowners = [0u8; 16];
    let answer = starfile::enter(
        parameters(),
        GrowthRecord {
            state: growth,
            growing: false,
            steps: 0,
        },
        &mut separators,
        &mut numbers,
        &mut words,
        &mut owners,
        &mut poolnumbers,
        &mut poolwords,
        &mut poolowners,
        INSTITUTE,
        number,
        position,
    );
    Replied {
        reply: placed_reply(placed_answer(answer)),
        file: StarFile {
            growth,
            separators,
            numbers,
            words,
            owners,
        },
    }
}

fn look_up(file: StarFile, number: u32) -> Reply
    ensures { result ≡ reply_to (state_in file) (LookUp number) }
{
    let growth = file.growth;
    let separators = file.separators;
    let numbers = file.numbers;
    let words = file.words;
    let owners = file.owners;
    let found = starfile::look_up(
        parameters(),
        GrowthRecord {
            state: growth,
            growing: false,
            steps: 0,
        },
        &separators,
        &numbers,
        &words,
        &owners,
        number,
    );
    found_reply(sought_answer(found))
}

fn remove(file: StarFile, number: u32) -> Replied
    ensures { Follows (state_in file) (Remove number) result }
{
    let growth = file.growth;
    let mut separators = file.separators;
    let mut numbers = file.numbers;
    let mut words = file.words;
    let mut owners = file.owners;
    let mut poolnumbers = [0u32; 16];
    let mut poolwords = [0u64; 16];
    let mut poolowners = [0u8; 16];
    let answer = starfile::remove(
        parameters(),
        GrowthRecord {
            state: growth,
            growing: false,
            steps: 0,
        },
        &mut separators,
        &mut numbers,
        &mut words,
        &mut owners,
        &mut poolnumbers,
        &mut poolwords,
        &mut poolowners,
        INSTITUTE,
        number,
    );
    Replied {
        reply: placed_reply(placed_answer(answer)),
        file: StarFile {
            growth,
            separators,
            numbers,
            words,
            owners,
        },
    }
}

fn grow(file: StarFile) -> Replied
    ensures { Follows (state_in file) Grow result }
{
    let growth = file.growth;
    let mut separators = file.separators;
    let mut numbers = file.numbers;
    let mut words = file.words;
    let mut owners = file.owners;
    let mut poolnumbers = [0u32; 16];
    let mut poolwords = [0u64; 16];
    let mut poolowners = [0u8; 16];
    let grown = starfile::grow(
        parameters(),
        GrowthRecord {
            state: growth,
            growing: false,
            steps: 0,
        },
        &mut separators,
        &mut numbers,
        &mut words,
        &mut owners,
        &mut poolnumbers,
        &mut poolwords,
        &mut poolowners,
    );
    let answer = grown.answer;
    let record = grown.growth;
    let next = record.state;
    Replied {
        reply: placed_reply(placed_answer(answer)),
        file: StarFile {
            growth: next,
            separators,
            numbers,
            words,
            owners,
        },
    }
}

fn placed_reply(answer: Answer) -> Reply
    ensures { result ≡ placed_reply_lem answer }
{
    unless_refused(answer, Reply::Accepted(answer.page))
}

fn found_reply(answer: Answer) -> Reply
    ensures { result ≡ found_reply_lem answer }
{
    let page = answer.page;
    if !answer.found {
        return unless_refused(answer, Reply::Missing(page));
    }
    let position = answer.position;
    let reply = Reply::Found {
        page,
        ra: position.ra,
        dec: position.dec,
    };
    unless_refused(answer, reply)
}

fn unless_refused(answer: Answer, reply: Reply) -> Reply
    ensures { result ≡ unless_refused_lem answer reply }
{
    if answer.refusal == 0 {
        return reply;
    }
    Reply::Refused {
        refusal: answer.refusal,
        page: answer.page,
    }
}
