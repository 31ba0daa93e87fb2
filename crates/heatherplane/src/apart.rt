// What needs no file: the state to begin with, marks for a backup, and the version.
ghost use Rattle.std.specs.Prelude.{◌≡◌};
ghost use Rattle.calls.specs.Records.{closed_record};
ghost use Rattle.backup.specs.Marks.{marking_of, told as Marks·told};
ghost use Rattle.capacity.specs.State.{choice_of};
ghost use Rattle.heatherplane.specs.Reply.{reply_of_lem, parameters_of_lem, state_of, version};

use crate::replies::{Reply, reply_of};
use calls::answers::due_answer;
use calls::records::GrowthRecord;
use hashing::{Growth, Parameters};

#[unsafe(no_mangle)]
pub extern "C" fn heatherplane_state_for(
    places: u32,
    groups: u32,
    width: u32,
    step: u32,
    bits: u32,
    load: u32,
    pages: u32,
    multiplier: u32,
    stars: u32,
) -> Reply
    ensures { result ≡ reply_of_lem (choice_of (parameters_of_lem places groups width step bits load pages multiplier) stars).answer
        (closed_record (choice_of (parameters_of_lem places groups width step bits load pages multiplier) stars).growth) }
{
    let parameters = Parameters {
        places,
        groups,
        width,
        step,
        bits,
        load,
        pages,
        multiplier,
    };
    let chosen = capacity::state_for(parameters, stars);
    let answer = chosen.answer;
    let state = chosen.growth;
    let growth = GrowthRecord {
        state,
        growing: false,
        steps: 0,
    };
    reply_of(due_answer(answer), growth)
}

// From the growth state before the growth and the separators before and after it; the answer is the refusal.
#[unsafe(no_mangle)]
pub extern "C" fn heatherplane_mark_changed(
    places: u32,
    groups: u32,
    width: u32,
    step: u32,
    bits: u32,
    load: u32,
    pages: u32,
    multiplier: u32,
    expansions: u32,
    expanded: u32,
    oldseparators: &[u8],
    newseparators: &[u8],
    marks: &mut [u8],
) -> u32
    ensures { Marks·told result marks.new ≡ marking_of (parameters_of_lem places groups width step bits load pages multiplier) (state_of expansions expanded)
        oldseparators.now newseparators.now marks.old }
{
    let parameters = Parameters {
        places,
        groups,
        width,
        step,
        bits,
        load,
        pages,
        multiplier,
    };
    let growth = Growth {
        expansions,
        expanded,
    };
    backup::mark_changed(parameters, growth, oldseparators, newseparators, marks)
}

#[unsafe(no_mangle)]
pub extern "C" fn heatherplane_version() -> u32
    ensures { result ≡ version }
{
    900
}
