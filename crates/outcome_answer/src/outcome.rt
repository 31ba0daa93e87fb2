// What came of placing pages anew, as the answer of a call.
ghost use Rattle.std.specs.Prelude.{◌≡◌};
ghost use Rattle.outcome_answer.specs.Outcomes.{OutcomeSmall, outcome_placed};

use calls::answers::{Placed, Refusal};
use page_plan::Outcome;

// With the place given, at which the star was sought.
pub fn placed_from(outcome: Outcome, place: u32) -> Placed
    requires { OutcomeSmall outcome }
    ensures { result ≡ outcome_placed outcome place }
{
    match outcome {
        Outcome::On(page) => Placed::On(page as u32, place),
        Outcome::Unsound(page) => Placed::Refused(Refusal::Damaged(page as u32), place),
        Outcome::Overflows => Placed::Refused(Refusal::Full, place),
    }
}
