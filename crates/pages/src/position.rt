// Star numbers, positions, and a position as one word of 64 bits.
ghost use Rattle.std.specs.Prelude.{true, ◌≡◌};
ghost use Rattle.pages.specs.Position.{valid_number, valid_position, valid_word, packed, unpacked};

// In milliarcseconds. `dec` is signed.
#[derive(Clone, Copy)]
pub struct Position {
    pub ra: u32,
    pub dec: i32,
}

const LAST_NUMBER: u32 = 2147483646;

const LAST_RA: u32 = 1295999999;

const LAST_DEC: i32 = 324000000;

// A word is the right ascension times UNIT and the declination raised by LAST_DEC.
const UNIT: u64 = 4294967296;

const LAST_RAISED: u64 = 648000000;

pub fn number_valid(number: u32) -> bool
    ensures { result ≡ valid_number number }
{
    1 <= number && number <= LAST_NUMBER
}

pub fn position_valid(position: Position) -> bool
    ensures { result ≡ valid_position position }
{
    if LAST_RA < position.ra {
        return false;
    }
    -LAST_DEC <= position.dec && position.dec <= LAST_DEC
}

pub fn word_valid(word: u64) -> bool
    ensures { result ≡ valid_word word }
{
    word / UNIT <= LAST_RA as u64 && word % UNIT <= LAST_RAISED
}

pub fn pack(position: Position) -> u64
    requires { valid_position position ≡ true }
    ensures { result ≡ packed position }
{
    position.ra as u64 * UNIT + (position.dec + LAST_DEC) as u64
}

pub fn unpack(word: u64) -> Position
    requires { valid_word word ≡ true }
    ensures { result ≡ unpacked word }
{
    let ra = (word / UNIT) as u32;
    let dec = (word % UNIT) as i32 - LAST_DEC;
    Position { ra, dec }
}
