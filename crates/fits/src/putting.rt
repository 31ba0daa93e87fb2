// A file written as a table.
ghost use Rattle.std.specs.Prelude.{◌≡◌, ◌≤◌, length};
ghost use Rattle.placement.specs.Lent.{held};
ghost use Rattle.fits_table.specs.Rows.{table_of};
ghost use Rattle.fits_table.specs.Shape.{rows_in, RowsUp};
ghost use Rattle.exchange.specs.Tables.{Writes, write_under};
ghost use Rattle.fits.specs.Written.{length_said};
ghost use Rattle.fits.specs.Shape.{fitted};

use call_guard::{admit, file_fits};
use calls::answers::{Answer, Refusal};
use calls::records::GrowthRecord;
use fits_table::items::count_held;
use fits_table::table::put_table;
use hashing::{Geometry, Parameters};
use pages::position::Position;
use survey::lowest_unsound;

// The length of the table.
#[derive(Clone, Copy)]
pub enum Written {
    Length(u32),
    Refused(Refusal),
}

// The length stands in the field of the count.
pub fn written_answer(answer: Written) -> Answer
    ensures { result ≡ length_said answer }
{
    match answer {
        Written::Length(length) => {
            let position = Position { ra: 0, dec: 0 };
            Answer {
                refusal: 0,
                page: 0,
                place: 0,
                found: false,
                position,
                due: false,
                stars: length,
            }
        }
        Written::Refused(refusal) => calls::answers::due_answer(calls::answers::Due::Refused(
            refusal,
        )),
    }
}

// The table of sound pages. Bytes past it are left.
fn write_sound(numbers: &[u32], words: &[u64], out: &mut [u8]) -> Written
    requires words_len { length words.now ≡ length numbers.now }
    requires numbers_len_bound { length numbers.now ≤ 32768 }
    requires rows_up { RowsUp 0 (rows_in numbers.now words.now) }
    ensures { Writes (fitted (table_of (rows_in numbers.now words.now)) out.old) (length_said result) out.new }
{
    let rows = count_held(numbers);
    let length = 5760 + (12 * rows + 2879) / 2880 * 2880;
    if out.len() < length {
        return Written::Refused(Refusal::ShortOutput);
    }
    put_table(numbers, words, out, rows as u32);
    Written::Length(length as u32)
}

// The stars of the file as a table. The file is only read, also while a growth is open.
pub fn write_table(
    parameters: Parameters,
    growth: GrowthRecord,
    separators: &[u8],
    numbers: &[u32],
    words: &[u64],
    owners: &[u8],
    out: &mut [u8],
) -> Written
    ensures leaves { Writes (write_under parameters growth (held separators.now numbers.now words.now owners.now) out.old) (length_said result) out.new }
{
    let fits = file_fits(
        parameters,
        separators.len(),
        numbers.len(),
        words.len(),
        owners.len(),
    );
    if let Err(refusal) = admit(parameters, growth, fits) {
        return Written::Refused(refusal);
    }
    let state = growth.state;
    let geometry = Geometry {
        parameters,
        growth: state,
    };
    let table = generator::first_multipliers(parameters.multiplier);
    let bad = lowest_unsound(&table, geometry, separators, numbers, words, owners);
    if bad < parameters.pages as usize {
        return Written::Refused(Refusal::Damaged(bad as u32));
    }
    write_sound(numbers, words, out)
}
