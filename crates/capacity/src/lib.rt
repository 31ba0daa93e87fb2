// The growth state to begin a file with, for the stars that it is to hold. An empty file may begin with any valid state.

#![tactic(auto)]

ghost use Rattle.std.specs.Prelude.{◌≡◌, true, ◌≤◌};
ghost use Rattle.hashing.specs.Limits.{valid_parameters, valid_growth};
ghost use Rattle.calls.specs.Due.{exceeds as Due·exceeds};
ghost use Rattle.capacity.specs.State.{state_for_lem, choice_of, chosen_as};

use calls::answers::{Due, Refusal};
use hashing::{Geometry, Growth, Parameters};

// Whether growth is due there with the stars given, which it is only in the last state that M allows.
#[derive(Clone, Copy)]
pub struct Chosen {
    pub answer: Due,
    pub growth: Growth,
}

pub fn state_for(parameters: Parameters, stars: u32) -> Chosen
    ensures choice { chosen_as result ≡ choice_of parameters stars }
{
    if !hashing::parameters_valid(parameters) {
        let growth = Growth {
            expansions: 0,
            expanded: 0,
        };
        return Chosen {
            answer: Due::Refused(Refusal::BadParameters),
            growth,
        };
    }
    let growth = first_state(parameters, stars);
    let geometry = Geometry { parameters, growth };
    let pages = geometry.highest_address() + 1;
    if exceeds(parameters, pages, stars) {
        return Chosen {
            answer: Due::Yes(stars),
            growth,
        };
    }
    Chosen {
        answer: Due::No(stars),
        growth,
    }
}

// A growth adds a page.
fn first_state(parameters: Parameters, stars: u32) -> Growth
    requires { valid_parameters parameters ≡ true }
    ensures { (result ≡ state_for_lem parameters stars) × (valid_growth parameters result ≡ true) }
{
    let mut growth = Growth {
        expansions: 0,
        expanded: 0,
    };
    for pages in parameters.width * parameters.groups..parameters.pages {
        if !exceeds(parameters, pages, stars) {
            return growth;
        }
        let geometry = Geometry { parameters, growth };
        growth = hashing::grown(geometry);
    }
    growth
}

fn exceeds(parameters: Parameters, pages: u32, stars: u32) -> bool
    requires parameters_value { valid_parameters parameters ≡ true }
    requires pages_bound { pages ≤ 1024 }
    ensures { result ≡ Due·exceeds parameters pages stars }
{
    let room = parameters.load * parameters.places * pages;
    (room as u64) < 100 * (stars as u64)
}
