// The answer of a growth or shrinking, with the growth state that it leaves.
ghost use Rattle.std.specs.Prelude.{◌≡◌};
ghost use Rattle.outcome_answer.specs.Outcomes.{OutcomeSmall, outcome_grown, unmoved_by};

use crate::outcome::placed_from;
use calls::answers::{Grown, Placed, Refusal};
use hashing::Growth;
use page_plan::Outcome;

// The new state only if the stars were placed anew.
pub fn grown_by(outcome: Outcome, growth: Growth, next: Growth) -> Grown
    requires { OutcomeSmall outcome }
    ensures { result ≡ outcome_grown outcome growth next }
{
    match placed_from(outcome, 0) {
        Placed::On(page, place) => Grown {
            answer: Placed::On(page, place),
            growth: next,
        },
        Placed::Refused(refusal, _) => unmoved(growth, refusal),
    }
}

pub fn unmoved(growth: Growth, refusal: Refusal) -> Grown
    ensures { result ≡ unmoved_by growth refusal }
{
    Grown {
        answer: Placed::Refused(refusal, 0),
        growth,
    }
}
