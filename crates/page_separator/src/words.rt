// A waiting star as one word: home, number and source. Numeric order of the low 47 bits is order by number.
ghost use Rattle.std.specs.Prelude.{◌≡◌, ◌≤◌, ◌<◌, ◌^◌};
ghost use Rattle.page_separator.specs.Words.{home_of, number_in, low_of};
ghost use Rattle.page_separator.specs.Words.{pack as Words·pack};

const HOME: u64 = 140737488355328; // 2^47

const NUMBER: u64 = 65536; // 2^16

const NUMBERS: u64 = 2147483648; // 2^31

pub fn pack(home: u32, number: u32, source: usize) -> u64
    requires home_bound { home ≤ 1024 }
    requires number_bound { number < 2 ^ 31 }
    requires source_bound { source < 2 ^ 16 }
    ensures { result ≡ Words·pack home number source }
{
    home as u64 * HOME + number as u64 * NUMBER + source as u64
}

pub fn home_of(word: u64) -> u32
    ensures { result ≡ home_of word }
{
    (word / HOME) as u32
}

pub fn number_of(word: u64) -> u32
    ensures { result ≡ number_in word }
{
    (word / NUMBER % NUMBERS) as u32
}

pub fn low_of(word: u64) -> u64
    ensures { result ≡ low_of word }
{
    word % HOME
}
