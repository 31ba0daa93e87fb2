// What C programs get back, and the growth record that they pass.
ghost use Rattle.std.specs.Prelude.{◌≡◌};
ghost use Rattle.calls.specs.Answers.{placed};
ghost use Rattle.heatherplane.specs.Reply.{reply_of_lem, replay_reply_lem, growth_of_lem, record_of_lem, flag as Reply·flag};

use calls::answers::{Answer, placed_answer};
use calls::records::{GrowthRecord, Recorded};
use history_replay::Resumed;

// The growth record in numbers.
#[repr(C)]
#[derive(Clone, Copy)]
pub struct Growth {
    pub expansions: u32,
    pub expanded: u32,
    pub growing: u32,
    pub steps: u32,
}

// The papers' refusal number, 0 if accepted, and their values, with the growth record after the call; a value that a call does not name is 0 or
// false.
#[repr(C)]
#[derive(Clone, Copy)]
pub struct Reply {
    pub refusal: u32,
    pub page: u32,
    pub place: u32,
    pub ra: u32,
    pub dec: i32,
    pub found: bool,
    pub due: bool,
    pub stars: u32,
    pub growth: Growth,
}

pub fn reply_of(answer: Answer, kept: GrowthRecord) -> Reply
    ensures { result ≡ reply_of_lem answer kept }
{
    let position = answer.position;
    let growth = growth_of(kept);
    Reply {
        refusal: answer.refusal,
        page: answer.page,
        place: answer.place,
        ra: position.ra,
        dec: position.dec,
        found: answer.found,
        due: answer.due,
        stars: answer.stars,
        growth,
    }
}

pub fn recorded(answer: Recorded) -> Reply
    ensures { result ≡ reply_of_lem (placed answer.answer) answer.growth }
{
    let said = answer.answer;
    reply_of(placed_answer(said), answer.growth)
}

pub fn replay_reply(resumed: Resumed) -> Reply
    ensures { result ≡ replay_reply_lem resumed.refusal resumed.growth }
{
    let state = resumed.growth;
    let growth = Growth {
        expansions: state.expansions,
        expanded: state.expanded,
        growing: 0,
        steps: 0,
    };
    Reply {
        refusal: resumed.refusal,
        page: 0,
        place: 0,
        ra: 0,
        dec: 0,
        found: false,
        due: false,
        stars: 0,
        growth,
    }
}

fn growth_of(kept: GrowthRecord) -> Growth
    ensures { result ≡ growth_of_lem kept }
{
    let state = kept.state;
    let growing = flag(kept.growing);
    Growth {
        expansions: state.expansions,
        expanded: state.expanded,
        growing,
        steps: kept.steps,
    }
}

fn flag(set: bool) -> u32
    ensures { result ≡ Reply·flag set }
{
    if set {
        return 1;
    }
    0
}

// A number is no bool: of C's numbers only 0 and 1 say whether a growth is open.
pub fn record_of(expansions: u32, expanded: u32, growing: u32, steps: u32) -> GrowthRecord
    ensures { result ≡ record_of_lem expansions expanded growing steps }
{
    let state = hashing::Growth {
        expansions,
        expanded,
    };
    if 1 < growing {
        return GrowthRecord {
            state,
            growing: false,
            steps: 1,
        };
    }
    GrowthRecord {
        state,
        growing: growing == 1,
        steps,
    }
}
