// What the Rust tests pass to crate growth_record and get back.
ghost use Rattle.std.specs.Prelude.{◌≡◌};
ghost use Rattle.calls.specs.Answers.{placed};
ghost use Rattle.starfile_tests.specs.Reply.{file_parameters, growth_record_lem, test_reply};

use calls::answers::placed_answer;
use calls::records::{GrowthRecord, Recorded};
use hashing::{Growth, Parameters};

// A file's parameters, with document 01's letters b, N, n0, s, k, A, M, and the multiplier.
#[repr(C)]
#[derive(Clone, Copy)]
pub struct FileParameters {
    pub places: u32,
    pub groups: u32,
    pub width: u32,
    pub step: u32,
    pub bits: u32,
    pub load: u32,
    pub pages: u32,
    pub multiplier: u32,
}

// The growth record.
#[repr(C)]
#[derive(Clone, Copy)]
pub struct Record {
    pub expansions: u32,
    pub expanded: u32,
    pub growing: bool,
    pub steps: u32,
}

// The papers' refusal number, 0 if accepted, page and place, and the growth record after the call.
#[repr(C)]
#[derive(Clone, Copy)]
pub struct Reply {
    pub refusal: u32,
    pub page: u32,
    pub place: u32,
    pub growth: Record,
}

pub fn parameters_of(given: FileParameters) -> Parameters
    ensures { result ≡ file_parameters given }
{
    Parameters {
        places: given.places,
        groups: given.groups,
        width: given.width,
        step: given.step,
        bits: given.bits,
        load: given.load,
        pages: given.pages,
        multiplier: given.multiplier,
    }
}

pub fn record_of(given: Record) -> GrowthRecord
    ensures { result ≡ growth_record_lem given }
{
    let state = Growth {
        expansions: given.expansions,
        expanded: given.expanded,
    };
    GrowthRecord {
        state,
        growing: given.growing,
        steps: given.steps,
    }
}

pub fn reply_of(recorded: Recorded) -> Reply
    ensures { result ≡ test_reply (placed recorded.answer) recorded.growth }
{
    let said = recorded.answer;
    let answer = placed_answer(said);
    let kept = recorded.growth;
    let state = kept.state;
    let growth = Record {
        expansions: state.expansions,
        expanded: state.expanded,
        growing: kept.growing,
        steps: kept.steps,
    };
    Reply {
        refusal: answer.refusal,
        page: answer.page,
        place: answer.place,
        growth,
    }
}
