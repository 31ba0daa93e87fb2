// Which pages a growth may have altered: document 02 (xiv). Of a clean file, every page without a mark is as it was.

#![tactic(auto)]

ghost use Rattle.std.specs.Prelude.{◌≡◌, true, not, ◌&&◌, ◌||◌, ◌<◌, eqb, length};
ghost use Rattle.generator.specs.Generator.{top_of_lem};
ghost use Rattle.hashing.specs.Geometry.{page_count, expands};
ghost use Rattle.hashing.specs.Limits.{valid_parameters, valid_growth};
ghost use Rattle.backup.specs.Marks.{mark, mark_refusal, marks_of, marking_of, told};

use hashing::{Geometry, Growth, Parameters};

// From the growth state before the growth and the separators before and after it.
pub fn mark_changed(
    parameters: Parameters,
    growth: Growth,
    old: &[u8],
    new: &[u8],
    marks: &mut [u8],
) -> u32
    ensures answer { told result marks.new ≡ marking_of parameters growth old.now new.now marks.old }
{
    let refusal = refusal_of(parameters, growth, old.len(), new.len(), marks.len());
    if refusal != 0 {
        return refusal;
    }
    let geometry = Geometry { parameters, growth };
    mark_pages(geometry, old, new, marks);
    0
}

fn refusal_of(parameters: Parameters, growth: Growth, old: usize, new: usize, marks: usize) -> u32
    ensures { result ≡ mark_refusal parameters growth old new marks }
{
    if !hashing::parameters_valid(parameters) {
        return 1;
    }
    if !hashing::growth_valid(parameters, growth) {
        return 1;
    }
    let pages = parameters.pages as usize;
    if old != pages {
        return 2;
    }
    if new != pages {
        return 2;
    }
    if marks != pages {
        return 2;
    }
    let geometry = Geometry { parameters, growth };
    if geometry.highest_address() == parameters.pages - 1 {
        return 8;
    }
    0
}

// Which stretches run at a page: one of the expanded group's pages, that of the new page.
#[derive(Clone, Copy)]
struct Running {
    group: bool,
    added: bool,
}

fn mark_pages(geometry: Geometry, old: &[u8], new: &[u8], marks: &mut [u8])
    requires parameters_value { valid_parameters geometry.parameters ≡ true }
    requires growth_value { valid_growth geometry.parameters geometry.growth ≡ true }
    requires growth_bound { page_count geometry.parameters geometry.growth < geometry.parameters.pages }
    requires len { (length old.now ≡ geometry.parameters.pages) × (length new.now ≡ geometry.parameters.pages) }
    requires marks_len { length marks.old ≡ geometry.parameters.pages }
    ensures { marks.new ≡ marks_of geometry.parameters geometry.growth old.now new.now }
{
    let mut run = Running {
        group: false,
        added: false,
    };
    for page in 0..marks.len() {
        let here = reached(geometry, run, page as u32);
        marks[page] = mark_of(here);
        run = passed(geometry.parameters, here, old[page], new[page]);
    }
}

// The stretches that run at a page: those that go on from the page below, and those that begin here.
fn reached(geometry: Geometry, run: Running, page: u32) -> Running
    requires parameters_value { valid_parameters geometry.parameters ≡ true }
    requires growth_value { valid_growth geometry.parameters geometry.growth ≡ true }
    ensures { (result.group ≡ (expands geometry.parameters geometry.growth page || run.group))
        × (result.added ≡ (eqb page (page_count geometry.parameters geometry.growth) || run.added)) }
{
    Running {
        group: hashing::expands(geometry, page) || run.group,
        added: page == geometry.highest_address() + 1 || run.added,
    }
}

fn mark_of(run: Running) -> u8
    ensures { result ≡ mark (run.group || run.added) }
{
    u8::from(run.group || run.added)
}

// The stretches that go on past a page, by its separators before and after.
fn passed(parameters: Parameters, run: Running, old: u8, new: u8) -> Running
    requires { valid_parameters parameters ≡ true }
    ensures { (result.group ≡ (run.group && not (eqb old (top_of_lem parameters.bits))))
        × (result.added ≡ (run.added && not (eqb old (top_of_lem parameters.bits) && eqb new (top_of_lem parameters.bits)))) }
{
    let top = placement::top_of(parameters);
    let ended = old == top;
    let settled = ended && new == top;
    Running {
        group: run.group && !ended,
        added: run.added && !settled,
    }
}
