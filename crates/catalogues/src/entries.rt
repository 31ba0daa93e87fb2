// What a line of a catalogue does to the rows collected before it.
ghost use Rattle.std.specs.Prelude.{◌≡◌, ◌≤◌, length};
ghost use Rattle.lines.specs.Grammar.{command_of, line_bytes};
ghost use Rattle.catalogues.specs.Entries.{rows_held, standing_of, entry_of, effect_of};

use lines::{Command, Line};
use pages::position::{Position, number_valid, pack, position_valid};

// How a star stands to the rows collected.
#[derive(Clone, Copy)]
pub enum Standing {
    New,
    Same,
    Other,
}

// What becomes of a line.
#[derive(Clone, Copy)]
pub enum Effect {
    Added { number: u32, word: u64 },
    Repeated,
    Refused(u32),
    Malformed,
}

fn standing_among(numbers: &[u32], words: &[u64], count: usize, number: u32, word: u64) -> Standing
    requires { (count ≤ length numbers.now) × (count ≤ length words.now) }
    ensures { result ≡ standing_of number word (rows_held count numbers.now words.now) }
{
    match numbers[..count].iter().position(|held| *held == number) {
        Some(i) if words[i] == word => Standing::Same,
        Some(_) => Standing::Other,
        None => Standing::New,
    }
}

fn entry(numbers: &[u32], words: &[u64], count: usize, number: u32, position: Position) -> Effect
    requires { (count ≤ length numbers.now) × (count ≤ length words.now) }
    ensures { result ≡ entry_of (rows_held count numbers.now words.now) number position }
{
    if !number_valid(number) {
        return Effect::Refused(3);
    }
    if !position_valid(position) {
        return Effect::Refused(4);
    }
    let word = pack(position);
    match standing_among(numbers, words, count, number, word) {
        Standing::New => {
            if 32768 <= count {
                return Effect::Refused(8);
            }
            Effect::Added { number, word }
        }
        Standing::Same => Effect::Repeated,
        Standing::Other => Effect::Refused(6),
    }
}

pub fn line_effect(numbers: &[u32], words: &[u64], count: usize, line: Line) -> Effect
    requires { (count ≤ length numbers.now) × (count ≤ length words.now) }
    ensures { result ≡ effect_of (rows_held count numbers.now words.now) (command_of (line_bytes line)) }
{
    match lines::parse_line(line) {
        Command::Enter { number, ra, dec } => {
            entry(numbers, words, count, number, Position { ra, dec })
        }
        Command::LookUp(_) | Command::Remove(_) | Command::Grow | Command::Bad => Effect::Malformed,
    }
}
