// The page that the separators name for a number.
ghost use Rattle.std.specs.Prelude.{◌≡◌, true, ◌+◌, ◌-◌, ◌*◌, ◌≤◌, ◌<◌, eqb, length, take};
ghost use Rattle.hashing.specs.Limits.{valid_parameters};
ghost use Rattle.placement.specs.Rule.{first};
ghost use Rattle.placement.specs.Hash.{named_page_lem};
ghost use Rattle.placement.specs.Shape.{hash_from, home_under};
ghost use Rattle.placement.specs.Ready.{Signers, Homing};

use hashing::{Geometry, Parameters};
use placement::top_of;

// For a number whose home is known. The first ninety multipliers serve for the first 44 pages.
pub fn named_from(
    table: &[u32; 90],
    geometry: Geometry,
    separators: &[u8],
    number: u32,
    home: u32,
) -> usize
    requires homing { Homing geometry table.now }
    requires separators_len { length separators.now ≡ geometry.parameters.pages }
    requires home_value { home ≡ home_under geometry number }
    ensures { result ≡ named_page_lem geometry.parameters geometry.growth separators.now number }
{
    let parameters = geometry.parameters;
    let from = home as usize;
    let end = (from + 44).min(separators.len());
    let page = probe(table, parameters, separators, number, from, from, end);
    if page < end {
        return page;
    }
    if end == separators.len() {
        return page;
    }
    probe_beyond(parameters, separators, number, from, end)
}

// Probes the pages from `start` on, none before it having been the one, by the whole table. Each table has a function of its own: inlined here,
// their copies share one place, and with both this function is too long to be inlined where no probe goes so far.
fn probe_beyond(
    parameters: Parameters,
    separators: &[u8],
    number: u32,
    home: usize,
    start: usize,
) -> usize
    requires parameters_value { valid_parameters parameters ≡ true }
    requires home_le_start { (home ≤ start) × ((start ≤ length separators.now) × (length separators.now ≤ 1024)) }
    requires number_value { first (hash_from parameters home) 0 (take start separators.now) number ≡ start }
    ensures { result ≡ first (hash_from parameters home) 0 (take (length separators.now) separators.now) number }
{
    if parameters.multiplier == 48271 {
        return probe_by::<48271>(parameters, separators, number, home, start);
    }
    probe_by::<16807>(parameters, separators, number, home, start)
}

fn probe_by<const MULTIPLIER: u32>(
    parameters: Parameters,
    separators: &[u8],
    number: u32,
    home: usize,
    start: usize,
) -> usize
    requires parameters_value { (valid_parameters parameters ≡ true) × (parameters.multiplier ≡ MULTIPLIER) }
    requires home_le_start { (home ≤ start) × ((start ≤ length separators.now) × (length separators.now ≤ 1024)) }
    requires number_value { first (hash_from parameters home) 0 (take start separators.now) number ≡ start }
    ensures { result ≡ first (hash_from parameters home) 0 (take (length separators.now) separators.now) number }
{
    let table = generator::multipliers(MULTIPLIER);
    probe(
        &table,
        parameters,
        separators,
        number,
        home,
        start,
        separators.len(),
    )
}

// Probes the pages from `start` upward to the one before `stop`, none before `start` having been the one. On the t-th page from home a number is
// signed by entry 2t of the table, counted from 0: X(2t+1).
fn probe(
    table: &[u32],
    parameters: Parameters,
    separators: &[u8],
    number: u32,
    home: usize,
    start: usize,
    stop: usize,
) -> usize
    requires signers { Signers parameters table.now }
    requires home_le_start { (home ≤ start) × ((start ≤ stop) × (stop ≤ length separators.now)) }
    requires stop_bound { (stop ≤ 1024) × (2 * (stop - home) < length table.now) }
    requires number_value { first (hash_from parameters home) 0 (take start separators.now) number ≡ start }
    ensures { result ≡ first (hash_from parameters home) 0 (take stop separators.now) number }
{
    for page in start..stop {
        let factor = table[2 * (page - home + 1)];
        let signature = generator::signature_by(factor, parameters.bits, number);
        if signature < separators[page] as u32 {
            return page;
        }
    }
    stop
}

// Whether the number, from its home, stays on no page below this one.
fn passes(
    table: &[u32],
    parameters: Parameters,
    separators: &[u8],
    number: u32,
    home: usize,
    page: usize,
) -> bool
    requires signers { Signers parameters table.now }
    requires home_le_page { (home ≤ page) × ((page ≤ 1024) × (page ≤ length separators.now)) }
    requires home_in_bounds { 2 * (page - home) < length table.now }
    ensures { result ≡ eqb (first (hash_from parameters home) 0 (take page separators.now) number) page }
{
    if home == page {
        return true;
    }
    probe(table, parameters, separators, number, home, home, page) == page
}

// Whether the page is the one that the separators name, by the number's home: no page above it is probed, and not the page itself
// where every signature is below its separator.
pub fn stands_on(
    table: &[u32],
    geometry: Geometry,
    separators: &[u8],
    number: u32,
    home: usize,
    page: usize,
) -> bool
    requires signers { Signers geometry.parameters table.now }
    requires separators_len { length separators.now ≡ geometry.parameters.pages }
    requires page_lt_pages { (page < geometry.parameters.pages) × (2 * (page + 1 - home) < length table.now) }
    requires home_value { home ≡ home_under geometry number }
    ensures { result ≡ eqb (named_page_lem geometry.parameters geometry.growth separators.now number) page }
{
    let parameters = geometry.parameters;
    if page < home {
        return false;
    }
    if top_of(parameters) <= separators[page] {
        return passes(table, parameters, separators, number, home, page);
    }
    probe(table, parameters, separators, number, home, home, page + 1) == page
}
