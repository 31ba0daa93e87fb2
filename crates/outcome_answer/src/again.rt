// The entry of a star that its named page holds.
ghost use Rattle.std.specs.Prelude.{◌≡◌};
ghost use Rattle.outcome_answer.specs.Outcomes.{again_placed};

use calls::answers::{Placed, Refusal};

// Accepted with the position word that is stored, else refused.
pub fn entered_again(page: u32, place: u32, stored: u64, word: u64) -> Placed
    ensures { result ≡ again_placed page place stored word }
{
    if stored == word {
        return Placed::On(page, place);
    }
    Placed::Refused(Refusal::Held, place)
}
