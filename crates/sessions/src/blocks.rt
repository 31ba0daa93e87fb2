// The answers to blocks of input, whatever lines they begin and end.
ghost use Rattle.std.specs.Prelude.{◌+◌, ◌*◌, ◌≤◌, ◌≡◌, [], ◌∷◌, length};
ghost use Rattle.lines.specs.Replies.{TextAt};
ghost use Rattle.lines.specs.Programs.{opened, last_of, Stands};
ghost use Rattle.sessions.specs.Commands.{answering, run_in};

use crate::commands::{StarFile, empty_file, follow};
use lines::Line;

// What is kept from one byte of the input to the next.
#[derive(Clone, Copy)]
pub struct Session {
    pub line: Line,
    pub file: StarFile,
}

// A session, and the place in a lent buffer after the answers so far.
#[derive(Clone, Copy)]
pub struct Answered {
    pub session: Session,
    pub at: usize,
}

pub fn start() -> Session
    ensures { run_in result ≡ opened answering }
{
    Session {
        line: lines::blank_line(),
        file: empty_file(),
    }
}

// The answer to the line that is complete now.
fn end_line(session: Session, out: &mut [u8], at: usize) -> Answered
    requires { at + 64 ≤ length out.old }
    ensures { (Stands answering (run_in session) (10 ∷ []) at out.old out.new (run_in result.session) result.at)
        × (result.at ≤ at + 37) }
{
    let line = session.line;
    let file = session.file;
    let replied = follow(file, lines::parse_line(line));
    let reply = replied.reply;
    let next = lines::format(out, at, reply);
    let after = replied.file;
    Answered {
        session: Session {
            line: lines::blank_line(),
            file: after,
        },
        at: next,
    }
}

fn take_byte(session: Session, byte: u8, out: &mut [u8], at: usize) -> Answered
    requires { at + 64 ≤ length out.old }
    ensures { (Stands answering (run_in session) (byte ∷ []) at out.old out.new (run_in result.session) result.at)
        × (result.at ≤ at + 37) }
{
    if byte == b'\n' {
        return end_line(session, out, at);
    }
    let line = session.line;
    let file = session.file;
    Answered {
        session: Session {
            line: lines::push(line, byte),
            file,
        },
        at,
    }
}

// The answers to all lines that end in a block. An answer has at most 37 bytes, so that 37 for each byte of the block and 64 are enough.
pub fn answer_block(session: Session, block: &[u8], out: &mut [u8]) -> Answered
    requires { 37 * length block.now + 64 ≤ length out.old }
    ensures { (Stands answering (run_in session) block.now 0
        out.old out.new (run_in result.session) result.at)
        × (result.at ≤ 37 * length block.now) }
{
    let mut state = session;
    let mut at = 0;
    for byte in block {
        let step = take_byte(state, *byte, out, at);
        state = step.session;
        at = step.at;
    }
    Answered { session: state, at }
}

// The answer to a last line that lacks its newline, where there is one. Answers the text's length.
pub fn finish(session: Session, out: &mut [u8]) -> usize
    requires { 64 ≤ length out.old }
    ensures { (TextAt 0 (last_of answering (run_in session)) out.old out.new result) × (result ≤ 37) }
{
    let line = session.line;
    if lines::is_blank(line) {
        return 0;
    }
    let ended = end_line(session, out, 0);
    ended.at
}
