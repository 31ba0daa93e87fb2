// A line of the program starline as a command, and its answers as text.

#![tactic(auto)]

ghost use Rattle.std.specs.Prelude.{ℕ, ◌+◌, ◌≤◌, ◌≡◌, List, [], ◌∷◌, ◌++◌, length};
ghost use Rattle.lines.specs.Grammar.{fields, command_of, enter_from, natural_of, declination_of, no_bytes, kept, line_bytes};
ghost use Rattle.lines.specs.Shape.{field_length};
ghost use Rattle.lines.specs.Replies.{digits, signed_digits, field_bytes, reply_bytes, TextAt};

#[derive(Clone, Copy)]
pub enum Command {
    Enter { number: u32, ra: u32, dec: i32 },
    LookUp(u32),
    Remove(u32),
    Grow,
    Bad,
}

// A field of 32 bits.
#[derive(Clone, Copy)]
pub enum Natural {
    Of(u32),
    Wrong,
}

// A field of signed 32 bits.
#[derive(Clone, Copy)]
pub enum Declination {
    At(i32),
    Nowhere,
}

// Of a line no more bytes are kept: one with more than 64 is Bad.
const KEPT: usize = 65;

// A line as it is read: its bytes so far, the first KEPT of them.
#[derive(Clone, Copy)]
pub struct Line {
    pub bytes: [u8; 72],
    pub length: usize,
}

#[derive(Clone, Copy)]
pub enum Reply {
    Accepted(u32),
    Found { page: u32, ra: u32, dec: i32 },
    Missing(u32),
    Refused { refusal: u32, page: u32 },
    Malformed,
}

// The command that a line means, without its newline.
pub fn parse(line: &[u8]) -> Command
    ensures { result ≡ command_of line.now }
{
    if line.len() == 0 {
        return Command::Bad;
    }
    let letter = line[0];
    if line.len() == 1 {
        if letter == b'G' {
            return Command::Grow;
        }
        return Command::Bad;
    }
    if line[1] != b' ' {
        return Command::Bad;
    }
    let operands = &line[2..];
    if letter == b'E' {
        return enter(operands);
    }
    let Natural::Of(number) = read_natural(operands) else {
        return Command::Bad;
    };
    if letter == b'L' {
        return Command::LookUp(number);
    }
    if letter == b'R' {
        return Command::Remove(number);
    }
    Command::Bad
}

fn enter(operands: &[u8]) -> Command
    ensures { result ≡ enter_from (fields operands.now) }
{
    let a = first_blank(operands);
    if a == operands.len() {
        return Command::Bad;
    }
    let Natural::Of(number) = read_natural(&operands[..a]) else {
        return Command::Bad;
    };
    enter_at(number, &operands[a + 1..])
}

// An entry's number was read; its position follows.
fn enter_at(number: u32, position: &[u8]) -> Command
    ensures { (f : List ℕ) → natural_of f ≡ Natural.Of number → result ≡ enter_from (f ∷ fields position.now) }
{
    let a = first_blank(position);
    if a == position.len() {
        return Command::Bad;
    }
    let Natural::Of(ra) = read_natural(&position[..a]) else {
        return Command::Bad;
    };
    let Declination::At(dec) = read_declination(&position[a + 1..]) else {
        return Command::Bad;
    };
    Command::Enter { number, ra, dec }
}

// Where the first field ends: at the first blank, or at the end.
fn first_blank(bytes: &[u8]) -> usize
    ensures { (result ≡ field_length bytes.now) × (result ≤ length bytes.now) }
{
    for (i, byte) in bytes.iter().enumerate() {
        if *byte == b' ' {
            return i;
        }
    }
    bytes.len()
}

// A blank is no digit, so a field that is not alone is refused too.
fn read_natural(field: &[u8]) -> Natural
    ensures { result ≡ natural_of field.now }
{
    if field.len() == 0 {
        return Natural::Wrong;
    }
    if field[0] == b'0' {
        if field.len() == 1 {
            return Natural::Of(0);
        }
        return Natural::Wrong;
    }
    let mut value: u64 = 0;
    for &c in field {
        if c < 48 {
            return Natural::Wrong;
        }
        if c > 57 {
            return Natural::Wrong;
        }
        value = 10 * value + (c - 48) as u64;
        if value > 4294967295 {
            return Natural::Wrong;
        }
    }
    Natural::Of(value as u32)
}

fn read_declination(field: &[u8]) -> Declination
    ensures { result ≡ declination_of field.now }
{
    if field.len() == 0 {
        return Declination::Nowhere;
    }
    if field[0] == b'-' {
        let Natural::Of(below) = read_natural(&field[1..]) else {
            return Declination::Nowhere;
        };
        if below == 0 {
            return Declination::Nowhere;
        }
        if below > 2147483648 {
            return Declination::Nowhere;
        }
        return Declination::At((0 - below as i64) as i32);
    }
    let Natural::Of(above) = read_natural(field) else {
        return Declination::Nowhere;
    };
    if above > 2147483647 {
        return Declination::Nowhere;
    }
    Declination::At(above as i32)
}

// The line with one byte more.
pub fn push(line: Line, byte: u8) -> Line
    ensures { line_bytes result ≡ kept (line_bytes line ++ (byte ∷ [])) }
{
    let n = line.length;
    if n < KEPT {
        let mut bytes = line.bytes;
        bytes[n] = byte;
        return Line {
            bytes,
            length: n + 1,
        };
    }
    line
}

// A line of no bytes.
pub fn blank_line() -> Line
    ensures { line_bytes result ≡ [] }
{
    Line {
        bytes: [0u8; 72],
        length: 0,
    }
}

pub fn is_blank(line: Line) -> bool
    ensures { result ≡ no_bytes (line_bytes line) }
{
    line.length == 0
}

pub fn parse_line(line: Line) -> Command
    ensures { result ≡ command_of (line_bytes line) }
{
    let n = line.length;
    let bytes = line.bytes;
    if n >= KEPT {
        return Command::Bad;
    }
    parse(&bytes[..n])
}

// Writes the text of a reply at a place of a lent buffer, and answers the place after it.
pub fn format(out: &mut [u8], at: usize, reply: Reply) -> usize
    requires { at + 64 ≤ length out.old }
    ensures { TextAt at (reply_bytes reply) out.old out.new result }
{
    match reply {
        Reply::Accepted(page) => {
            let next = put(out, at, b"ok ");
            put_field(out, next, page, b'\n')
        }
        Reply::Found { page, ra, dec } => {
            let first = put(out, at, b"at ");
            let second = put_field(out, first, page, b' ');
            let third = put_field(out, second, ra, b' ');
            put_declination(out, third, dec)
        }
        Reply::Missing(page) => {
            let next = put(out, at, b"none ");
            put_field(out, next, page, b'\n')
        }
        Reply::Refused { refusal, page } => {
            let first = put(out, at, b"no ");
            let second = put_field(out, first, refusal, b' ');
            put_field(out, second, page, b'\n')
        }
        Reply::Malformed => put(out, at, b"bad\n"),
    }
}

pub fn put(out: &mut [u8], at: usize, text: &[u8]) -> usize
    requires { at + length text.now ≤ length out.old }
    ensures { TextAt at text.now out.old out.new result }
{
    let end = at + text.len();
    out[at..end].copy_from_slice(text);
    end
}

fn put_digits(out: &mut [u8], at: usize, n: u32) -> usize
    requires { at + length (digits n) ≤ length out.old }
    ensures { TextAt at (digits n) out.old out.new result }
{
    if n < 10 {
        out[at] = 48 + n as u8;
        return at + 1;
    }
    let last = put_digits(out, at, n / 10);
    out[last] = 48 + (n % 10) as u8;
    last + 1
}

// A number and the byte after it.
pub fn put_field(out: &mut [u8], at: usize, n: u32, end: u8) -> usize
    requires { at + 11 ≤ length out.old }
    ensures { TextAt at (field_bytes n end) out.old out.new result }
{
    let next = put_digits(out, at, n);
    out[next] = end;
    next + 1
}

// A declination and the newline after it.
pub fn put_declination(out: &mut [u8], at: usize, dec: i32) -> usize
    requires { at + 12 ≤ length out.old }
    ensures { TextAt at (signed_digits dec ++ (10 ∷ [])) out.old out.new result }
{
    if dec < 0 {
        out[at] = b'-';
        return put_field(out, at + 1, (0 - dec as i64) as u32, b'\n');
    }
    put_field(out, at, dec as u32, b'\n')
}
