// A local test for pages that are the rule's: sound pages are so exactly if no separator could be one greater.
ghost use Rattle.std.specs.Prelude.{◌≡◌, true, false, suc, ◌+◌, ◌-◌, ◌*◌, ◌≤◌, ◌<◌, length, get_or, take, drop};
ghost use Rattle.buffers.specs.Counts.{one};
ghost use Rattle.hashing.specs.Limits.{valid_parameters};
ghost use Rattle.placement.specs.Shape.{home_under};
ghost use Rattle.placement.specs.Ready.{Signers};
ghost use Rattle.clean_test.specs.Raising.{passed, passed_on_lem, own_on, may_rise, stars_among, Counts, PassersCounted, AddsCounts, AddsBelow, Homed, HomedFrom, SignablePassed, hash_under, first_raisable_lem, first_rising_lem};

use hashing::{Geometry, Parameters};

// Counts a star on each page from its home and from `from` up to the one before `page` whose separator is its signature there.
fn count_passed(
    table: &[u32],
    geometry: Geometry,
    separators: &[u8],
    counts: &mut [u32; 1024],
    number: u32,
    home: usize,
    from: usize,
    page: usize,
)
    requires signers { Signers geometry.parameters table.now }
    requires page_in_bounds { (page ≤ length separators.now) × (page ≤ 1024) }
    requires counts { Counts from 65535 counts.old }
    requires home_value { home ≡ home_under geometry number }
    requires home_in_bounds { 2 * (page - home) < length table.now }
    ensures { AddsCounts from (λ p. one (passed (hash_under geometry) separators.now p page number)) counts }
{
    let first = from.max(home);
    for probed in first..page {
        let factor = table[2 * (probed + 1 - home)];
        let signature = generator::signature_by(factor, geometry.parameters.bits, number);
        if signature == separators[probed] as u32 {
            counts[probed] += 1;
        }
    }
}

// Counts the stars of a page that stand above their home, on the pages from `from` on that they passed.
fn count_off_home(
    table: &[u32],
    geometry: Geometry,
    separators: &[u8],
    numbers: &[u32],
    homes: &[u32],
    counts: &mut [u32; 1024],
    from: usize,
    page: usize,
)
    requires signers { Signers geometry.parameters table.now }
    requires homed { Homed geometry separators.now numbers.now homes.now page (suc page) }
    requires counts { Counts from 32800 counts.old }
    requires signable_passed { SignablePassed (length table.now) geometry.parameters.places numbers.now homes.now page (suc page) }
    ensures { AddsCounts from (λ p. passed_on_lem (hash_under geometry) separators.now numbers.now p page) counts }
{
    let places = geometry.parameters.places as usize;
    let first = page * places;
    for i in 0..places {
        let number = numbers[first + i];
        let home = homes[first + i] as usize;
        if number != 0 {
            if home < page {
                count_passed(
                    table, geometry, separators, counts, number, home, from, page,
                );
            }
        }
    }
}

// How many of the items from `first` on are stars.
fn count_stars(numbers: &[u32], first: usize, places: usize) -> u32
    requires { (first + places ≤ length numbers.now) × (places ≤ 32) }
    ensures { result ≡ stars_among (take places (drop first numbers.now)) }
{
    let mut stars: u32 = 0;
    for number in &numbers[first..first + places] {
        stars += u32::from(*number != 0);
    }
    stars
}

// How many stars from item `first` up to the one before `last` are homed below page `low`.
fn count_below(numbers: &[u32], homes: &[u32], first: usize, last: usize, low: u32) -> u32
    requires first_le_last { (first ≤ last) × ((last ≤ length numbers.now) × (last ≤ length homes.now)) }
    requires last_bound { last ≤ 32768 }
    ensures { result ≡ 0 → HomedFrom low numbers.now homes.now first last }
{
    let mut below: u32 = 0;
    for i in first..last {
        below += u32::from((numbers[i] != 0) & (homes[i] < low));
    }
    below
}

// Whether a table of so many entries signs the stars of a page on each page that they passed.
fn signs_page(entries: usize, numbers: &[u32], homes: &[u32], places: usize, page: usize) -> bool
    requires entries_nonzero { (0 < entries) × ((page < 1024) × (places ≤ 32)) }
    requires places_in_bounds { (page * places + places ≤ length numbers.now) × (page * places + places ≤ length homes.now) }
    ensures signable_passed { result ≡ true → SignablePassed entries places numbers.now homes.now page (suc page) }
    ensures value { 2 * page < entries → result ≡ true }
{
    let reach = (entries - 1) / 2;
    if page <= reach {
        return true;
    }
    let first = page * places;
    let low = (page - reach) as u32;
    count_below(numbers, homes, first, first + places, low) == 0
}

// Counts the stars of a page on it, where its separator is below the greatest: only there a count matters.
fn count_own(
    geometry: Geometry,
    separators: &[u8],
    numbers: &[u32],
    counts: &mut [u32; 1024],
    page: usize,
)
    requires parameters_value { valid_parameters geometry.parameters ≡ true }
    requires page_lt_pages { (page < geometry.parameters.pages) × (length separators.now ≡ geometry.parameters.pages) }
    requires numbers_len { length numbers.now ≡ geometry.parameters.pages * geometry.parameters.places }
    requires counts_len { (length counts.old ≡ 1024) × (get_or counts.old page 0 ≤ 32800) }
    ensures { AddsBelow (hash_under geometry) separators.now (λ p. own_on (hash_under geometry) numbers.now p page) counts }
{
    if placement::top_of(geometry.parameters) <= separators[page] {
        return;
    }
    let places = geometry.parameters.places as usize;
    let stars = count_stars(numbers, page * places, places);
    counts[page] += stars;
}

// Counts the stars of a page on those from `from` on that they passed. A star at home passed none. If the table does not sign
// them all, none is counted.
fn count_passers(
    table: &[u32],
    geometry: Geometry,
    separators: &[u8],
    numbers: &[u32],
    homes: &[u32],
    counts: &mut [u32; 1024],
    from: usize,
    page: usize,
) -> bool
    requires signers { Signers geometry.parameters table.now }
    requires homed { Homed geometry separators.now numbers.now homes.now page (suc page) }
    requires counts { Counts from 32768 counts.old }
    requires from_le_page { from ≤ page }
    ensures adds_counts { result ≡ true → AddsCounts from (λ p. passed_on_lem (hash_under geometry) separators.now numbers.now p page) counts }
    ensures counts_unchanged { result ≡ false → counts.new ≡ counts.old }
    ensures value { 2 * page < length table.now → result ≡ true }
{
    let places = geometry.parameters.places as usize;
    let first = page * places;
    if count_below(numbers, homes, first, first + places, page as u32) == 0 {
        return true;
    }
    if !signs_page(table.len(), numbers, homes, places, page) {
        return false;
    }
    count_off_home(
        table, geometry, separators, numbers, homes, counts, from, page,
    );
    true
}

// Counts the stars of the pages from `start` up to the first one with a star that the table does not sign, which is answered; `stop` if there is none.
fn count_pages(
    table: &[u32],
    geometry: Geometry,
    separators: &[u8],
    numbers: &[u32],
    homes: &[u32],
    counts: &mut [u32; 1024],
    from: usize,
    start: usize,
    stop: usize,
) -> usize
    requires signers { Signers geometry.parameters table.now }
    requires homed { Homed geometry separators.now numbers.now homes.now from stop }
    requires from_le_start { (from ≤ start) × (start ≤ stop) }
    requires passers_counted { PassersCounted (hash_under geometry) separators.now numbers.now from start counts.old }
    ensures lower_bound { (start ≤ result) × (result ≤ stop) }
    ensures value { 2 * stop < length table.now → result ≡ stop }
    ensures passers_counted_2 { PassersCounted (hash_under geometry) separators.now numbers.now from result counts.new }
{
    for page in start..stop {
        if !count_passers(
            table, geometry, separators, numbers, homes, counts, from, page,
        ) {
            return page;
        }
        count_own(geometry, separators, numbers, counts, page);
    }
    stop
}

fn could_rise(separator: u8, top: u8, count: u32, places: u32) -> bool
    ensures { result ≡ may_rise top places separator count }
{
    separator < top && count <= places
}

// The first page from `from` up to the one before `stop` whose separator could be one greater by these counts, `stop` if there is none.
fn first_rising(
    parameters: Parameters,
    separators: &[u8],
    counts: &[u32; 1024],
    from: usize,
    stop: usize,
) -> usize
    requires parameters_value { valid_parameters parameters ≡ true }
    requires separators_len { (length separators.now ≡ parameters.pages) × (length counts.now ≡ 1024) }
    requires from_le_stop { (from ≤ stop) × (stop ≤ parameters.pages) }
    ensures { result ≡ first_rising_lem parameters separators.now counts.now from stop }
{
    let top = placement::top_of(parameters);
    for page in from..stop {
        if could_rise(separators[page], top, counts[page], parameters.places) {
            return page;
        }
    }
    stop
}

// The same with the pages from `start` on counted by the whole table. Each table has a function of its own: inlined here, their copies share one
// place, and with both this function is too long to be inlined where no star is so far from home.
fn first_raisable_beyond(
    geometry: Geometry,
    separators: &[u8],
    numbers: &[u32],
    homes: &[u32],
    counts: &mut [u32; 1024],
    from: usize,
    start: usize,
    stop: usize,
) -> usize
    requires parameters_value { valid_parameters geometry.parameters ≡ true }
    requires homed { Homed geometry separators.now numbers.now homes.now from stop }
    requires from_le_start { (from ≤ start) × (start ≤ stop) }
    requires passers_counted { PassersCounted (hash_under geometry) separators.now numbers.now from start counts.old }
    ensures { result ≡ first_raisable_lem geometry separators.now numbers.now from stop }
{
    if geometry.parameters.multiplier == 48271 {
        return first_raisable_by::<48271>(
            geometry, separators, numbers, homes, counts, from, start, stop,
        );
    }
    first_raisable_by::<16807>(
        geometry, separators, numbers, homes, counts, from, start, stop,
    )
}

fn first_raisable_by<const MULTIPLIER: u32>(
    geometry: Geometry,
    separators: &[u8],
    numbers: &[u32],
    homes: &[u32],
    counts: &mut [u32; 1024],
    from: usize,
    start: usize,
    stop: usize,
) -> usize
    requires parameters_value { (valid_parameters geometry.parameters ≡ true) × (geometry.parameters.multiplier ≡ MULTIPLIER) }
    requires homed { Homed geometry separators.now numbers.now homes.now from stop }
    requires from_le_start { (from ≤ start) × (start ≤ stop) }
    requires passers_counted { PassersCounted (hash_under geometry) separators.now numbers.now from start counts.old }
    ensures { result ≡ first_raisable_lem geometry separators.now numbers.now from stop }
{
    let table = generator::multipliers(MULTIPLIER);
    let end = count_pages(
        &table, geometry, separators, numbers, homes, counts, from, start, stop,
    );
    first_rising(geometry.parameters, separators, counts, from, end)
}

// The first page from `from` up to the one before `stop` whose separator could be one greater, by the stars of these pages; `stop` if there is none.
// The first ninety multipliers serve up to a page with a star more than 44 pages above its home.
pub fn first_raisable(
    geometry: Geometry,
    separators: &[u8],
    numbers: &[u32],
    homes: &[u32],
    from: usize,
    stop: usize,
) -> usize
    requires parameters_value { valid_parameters geometry.parameters ≡ true }
    requires homed { Homed geometry separators.now numbers.now homes.now from stop }
    ensures { result ≡ first_raisable_lem geometry separators.now numbers.now from stop }
{
    let table = generator::first_multipliers(geometry.parameters.multiplier);
    let mut counts = [0u32; 1024];
    let near = count_pages(
        &table,
        geometry,
        separators,
        numbers,
        homes,
        &mut counts,
        from,
        from,
        stop,
    );
    if near == stop {
        return first_rising(geometry.parameters, separators, &counts, from, stop);
    }
    first_raisable_beyond(
        geometry,
        separators,
        numbers,
        homes,
        &mut counts,
        from,
        near,
        stop,
    )
}
