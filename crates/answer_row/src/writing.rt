// The answer of a call as eight numbers.
ghost use Rattle.std.specs.Prelude.{◌≡◌, ◌+◌, ◌≤◌, length};
ghost use Rattle.std.proofs.Math.Seq.{paste};
ghost use Rattle.answer_row.specs.Rows.{shifted, encoded};

use calls::answers::Answer;

// The eight numbers from item `at` on.
pub fn write(answers: &mut [u32], at: usize, answer: Answer)
    requires { at + 8 ≤ length answers.old }
    ensures { answers.new ≡ paste answers.old at (encoded answer) 8 }
{
    answers[at..at + 8].copy_from_slice(&encode(answer));
}

fn encode(answer: Answer) -> [u32; 8]
    ensures { result ≡ encoded answer }
{
    let found = u32::from(answer.found);
    let position = answer.position;
    let dec = unsigned(position.dec);
    let due = u32::from(answer.due);
    [
        answer.refusal,
        answer.page,
        answer.place,
        found,
        position.ra,
        dec,
        due,
        answer.stars,
    ]
}

// Any signed number of 32 bits, raised by 2^31.
fn unsigned(dec: i32) -> u32
    ensures { result ≡ shifted dec }
{
    (dec as i64 + 2147483648) as u32
}
