// Reads all of its standard input, whatever its length, and answers each line.

#![tactic(auto)]

ghost use Rattle.std.specs.Prelude.{◌≡◌, map, IfOk, OnOk, IfSome, unwrap_or};
ghost use Rattle.std.specs.Io.KnownBytes.{Appends, IsAtEnd};
ghost use Rattle.lines.specs.Grammar.{command_of, lines_of};
ghost use Rattle.lines.specs.Programs.{put_out};
ghost use Rattle.lines.specs.Streams.{Serves};
ghost use Rattle.sessions.specs.Commands.{answering, new_file, run_in};

use sessions::Session;
use std::io;
use std::io::{Read, Write};

fn main(rt: HostRuntime) -> io::Result<()> {
    answer_all(&mut rt.stdin(), &mut rt.stdout())
}

// The answers to a reader's lines, in whatever blocks its bytes come, go to a writer.
fn answer_all<R: Read, W: Write>(reader: &mut R, writer: &mut W) -> io::Result<()>
    ensures { OnOk result (IfSome (R.remaining reader.old)
        (λ input. Appends (W.contents writer.old) (W.contents writer.new)
        (put_out answering new_file (map command_of (lines_of input))))) }
{
    let session = read_all(sessions::start(), reader, writer)?;
    let mut out = [0u8; 64];
    let at = sessions::finish(session, &mut out);
    writer.write_all(&out[..at])?;
    Ok(())
}

// A proved loop has to end, and nothing says that the input does: it has more turns than any run uses up.
fn read_all<R: Read, W: Write>(
    session: Session,
    reader: &mut R,
    writer: &mut W,
) -> io::Result<Session>
    ensures serves { IfOk result (λ s. Serves answering (run_in session) (run_in s)
        (R.remaining reader.old) (R.remaining reader.new) (W.contents writer.old) (W.contents writer.new)) }
    ensures end { OnOk result (IsAtEnd (R.remaining reader.new)) }
{
    let mut state = session;
    for _ in 0..u64::MAX {
        let turn = read_some(state, reader, writer)?;
        let Some(next) = turn else {
            return Ok(state);
        };
        state = next;
    }
    Err(io::Error::other("the input does not end"))
}

// Reads once, and answers what came; at the end of the input nothing came.
fn read_some<R: Read, W: Write>(
    session: Session,
    reader: &mut R,
    writer: &mut W,
) -> io::Result<Option<Session>>
    ensures serves { IfOk result (λ next. Serves answering (run_in session) (run_in (unwrap_or next session))
        (R.remaining reader.old) (R.remaining reader.new) (W.contents writer.old) (W.contents writer.new)) }
    ensures end { IfOk result (λ next. next ≡ None → IsAtEnd (R.remaining reader.new)) }
{
    let mut block = [0u8; 512];
    let mut out = [0u8; 19008];
    let n = reader.read(&mut block)?;
    if n == 0 {
        return Ok(None);
    }
    let answered = sessions::answer_block(session, &block[..n], &mut out);
    let at = answered.at;
    writer.write_all(&out[..at])?;
    Ok(Some(answered.session))
}
