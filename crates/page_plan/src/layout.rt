// The plan of a stretch of pages: where each star will stand and which separators the pages get, written to the pool and to `planned`.
ghost use Rattle.std.specs.Prelude.{◌≡◌, true, map, ◌+◌, ◌-◌, ◌*◌, ◌^◌, ◌≤◌, ◌<◌, length, take};
ghost use Rattle.std.proofs.Math.Seq.{slice};
ghost use Rattle.pages.specs.Shape.{stretch};
ghost use Rattle.hashing.specs.Limits.{valid_parameters};
ghost use Rattle.placement.specs.File.{padded, written};
ghost use Rattle.placement.specs.Ready.{Signers};
ghost use Rattle.page_separator.specs.Words.{source_of};
ghost use Rattle.page_separator.specs.Lists.{all_below};
ghost use Rattle.page_plan.specs.Gather.{stars_in};
ghost use Rattle.page_separator.specs.Probes.{homes_up_to, Probing, Signable};
ghost use Rattle.page_plan.specs.Plans.{slot_source, Plannable, Settleable, SettlesPages, PartSettled, Continues, Ended, PlacesAll, PlansPage, PlansStretch};

use crate::gathering::gather;
use crate::settling::{settle, signs_words};
use hashing::Parameters;

// The source of the star in slot i, 0 for an empty place.
fn source_at(slots: &[u64; 32], kept: usize, i: usize) -> u32
    requires { i < 32 }
    ensures { result ≡ slot_source slots.now kept i }
{
    if kept <= i {
        return 0;
    }
    (slots[i] % 65536) as u32
}

// The sources of a page's places, empty places last.
pub fn store_sources(pool: &mut [u32], slots: &[u64; 32], at: usize, places: usize, kept: usize)
    requires places_in_bounds { (at + places ≤ length pool.old) × (places ≤ 32) }
    requires kept_le_places { (kept ≤ places) × (kept ≤ length slots.now) }
    ensures { pool.new ≡ written at (padded places (map source_of (take kept slots.now))) pool.old }
{
    for i in 0..places {
        pool[at + i] = source_at(slots, kept, i);
    }
}

// The words from `from` up to `end`, moved down to the front.
fn close_up(waiting: &mut [u64], from: usize, end: usize) -> usize
    requires { (from ≤ end) × (end ≤ length waiting.old) }
    ensures value { result ≡ end - from }
    ensures waiting_after { take result waiting.new ≡ slice from end waiting.old }
{
    let left = end - from;
    buffers::move_down(waiting, 0, from, left);
    left
}

// How many pages of a stretch are settled, and where the words carried past them start.
#[derive(Clone, Copy)]
pub struct Progress {
    pub pages: usize,
    pub from: usize,
}

// One page of the plan, by a table that signs its words if not all stay. The words that pass on stand from the answer up to `reach`.
fn settle_page(
    table: &[u32],
    parameters: Parameters,
    pool: &mut [u32],
    waiting: &mut [u64],
    planned: &mut [u8],
    from: usize,
    reach: usize,
    page: usize,
) -> usize
    requires signers { Signers parameters table.now }
    requires probing { Probing page from reach waiting.old }
    requires signable { parameters.places < reach - from → Signable (length table.now) page from reach waiting.old }
    requires page_in_bounds { (page < length planned.old) × (page * parameters.places + parameters.places ≤ length pool.old) }
    ensures { PlansPage parameters page from reach waiting pool planned result }
{
    let places = parameters.places as usize;
    let mut slots = [0u64; 32];
    let settled = settle(table, parameters, waiting, from, reach, page, &mut slots);
    planned[page] = settled.separator as u8;
    store_sources(pool, &slots, page * places, places, settled.kept);
    settled.from
}

// Settles the pages that are not settled yet, upward to one with words that the table does not sign, or where more words are left than the
// pages ahead have places and `spare` more.
fn settle_run(
    table: &[u32],
    parameters: Parameters,
    pool: &mut [u32],
    waiting: &mut [u64],
    planned: &mut [u8],
    ends: &[u32],
    lo: usize,
    count: usize,
    end: usize,
    spare: usize,
    done: Progress,
) -> Progress
    requires signers { Signers parameters table.now }
    requires spare_bound { (spare ≤ 32768) × PartSettled parameters lo count end ends.now pool.old waiting.old planned.old done }
    ensures continues { Continues parameters lo count end ends.now pool waiting planned done result }
    ensures ended { 2049 ≤ length table.now → Ended parameters count end spare result }
{
    let places = parameters.places as usize;
    let mut from = done.from;
    for v in done.pages..count {
        if spare + (count - v) * places < end - from {
            return Progress { pages: v, from };
        }
        let reach = ends[v] as usize;
        if !signs_words(table.len(), parameters, waiting, from, reach, lo + v) {
            return Progress { pages: v, from };
        }
        from = settle_page(
            table,
            parameters,
            pool,
            waiting,
            planned,
            from,
            reach,
            lo + v,
        );
    }
    Progress { pages: count, from }
}

// The same by the whole table, which is copied once and lent. Each table has a function of its own, as in `settle_beyond`.
fn run_beyond(
    parameters: Parameters,
    pool: &mut [u32],
    waiting: &mut [u64],
    planned: &mut [u8],
    ends: &[u32],
    lo: usize,
    count: usize,
    end: usize,
    spare: usize,
    done: Progress,
) -> Progress
    requires parameters_value { valid_parameters parameters ≡ true }
    requires spare_bound { (spare ≤ 32768) × PartSettled parameters lo count end ends.now pool.old waiting.old planned.old done }
    ensures continues { Continues parameters lo count end ends.now pool waiting planned done result }
    ensures ended { Ended parameters count end spare result }
{
    if parameters.multiplier == 48271 {
        return run_by_whole::<48271>(
            parameters, pool, waiting, planned, ends, lo, count, end, spare, done,
        );
    }
    run_by_whole::<16807>(
        parameters, pool, waiting, planned, ends, lo, count, end, spare, done,
    )
}

fn run_by_whole<const MULTIPLIER: u32>(
    parameters: Parameters,
    pool: &mut [u32],
    waiting: &mut [u64],
    planned: &mut [u8],
    ends: &[u32],
    lo: usize,
    count: usize,
    end: usize,
    spare: usize,
    done: Progress,
) -> Progress
    requires parameters_value { (valid_parameters parameters ≡ true) × (parameters.multiplier ≡ MULTIPLIER) }
    requires spare_bound { (spare ≤ 32768) × PartSettled parameters lo count end ends.now pool.old waiting.old planned.old done }
    ensures continues { Continues parameters lo count end ends.now pool waiting planned done result }
    ensures ended { Ended parameters count end spare result }
{
    let table = generator::multipliers(MULTIPLIER);
    settle_run(
        &table, parameters, pool, waiting, planned, ends, lo, count, end, spare, done,
    )
}

// Settles the stretch page by page: its words stand from `carried` up to `end` in groups by home, each up to its place in `ends`. Those carried
// past the stretch stand from the answer up to `end`. Where they are more than `spare`, the plan may have ended before.
fn settle_pages(
    parameters: Parameters,
    pool: &mut [u32],
    waiting: &mut [u64],
    planned: &mut [u8],
    ends: &[u32],
    lo: usize,
    count: usize,
    carried: usize,
    end: usize,
    spare: usize,
) -> usize
    requires settleable { Settleable parameters lo count carried end pool.old waiting.old planned.old ends.now }
    requires spare_bound { spare ≤ 32768 }
    ensures { SettlesPages parameters lo count carried end spare pool waiting planned result }
{
    let table = generator::first_multipliers(parameters.multiplier);
    let begun = Progress { pages: 0, from: 0 };
    let near = settle_run(
        &table, parameters, pool, waiting, planned, ends, lo, count, end, spare, begun,
    );
    if near.pages == count {
        return near.from;
    }
    let far = run_beyond(
        parameters, pool, waiting, planned, ends, lo, count, end, spare, near,
    );
    far.from
}

// Settles all pages of a file; the answer is whether each word finds a place. A page keeps at most b, so where more words are left than the
// pages ahead have places, not all do, and the plan ends there.
pub fn place_all(
    parameters: Parameters,
    pool: &mut [u32],
    waiting: &mut [u64],
    planned: &mut [u8],
    ends: &[u32],
    end: usize,
) -> bool
    requires { Settleable parameters 0 parameters.pages 0 end pool.old waiting.old planned.old ends.now }
    ensures { PlacesAll parameters end pool waiting planned result }
{
    let pages = parameters.pages as usize;
    settle_pages(
        parameters, pool, waiting, planned, ends, 0, pages, 0, end, 0,
    ) == end
}

// Gathers the stretch and settles it; `ends` has a place for each page.
fn plan_pages(
    parameters: Parameters,
    numbers: &[u32],
    pool: &mut [u32],
    waiting: &mut [u64],
    planned: &mut [u8],
    ends: &mut [u32],
    lo: usize,
    count: usize,
    without: u32,
    carried: usize,
) -> usize
    requires plannable { Plannable parameters lo count without carried numbers.now pool.old waiting.old planned.old }
    requires count_in_bounds { count ≤ length ends.old }
    ensures { PlansStretch parameters lo count without carried numbers pool waiting planned result }
{
    let places = parameters.places as usize;
    let end = gather(
        numbers, pool, waiting, ends, places, lo, count, without, carried,
    );
    let from = settle_pages(
        parameters, pool, waiting, planned, ends, lo, count, carried, end, end,
    );
    close_up(waiting, from, end)
}

// Plans the stretch of `count` pages from page lo, with the words carried in at the front of `waiting` and the stars of the stretch but `without`.
// The pool holds the homes of the stretch's items, and sources afterwards. The words carried past the stretch are left at the front; the answer is their count.
// Most stretches are short, and for these no long list is cleared.
pub fn plan(
    parameters: Parameters,
    numbers: &[u32],
    pool: &mut [u32],
    waiting: &mut [u64],
    planned: &mut [u8],
    lo: usize,
    count: usize,
    without: u32,
    carried: usize,
) -> usize
    requires parameters_value { valid_parameters parameters ≡ true }
    requires count_nonzero { (0 < count) × ((lo + count ≤ 1024) × (lo + count ≤ length planned.old)) }
    requires places_in_bounds { ((lo + count) * parameters.places ≤ length numbers.now) × ((lo + count) * parameters.places ≤ length pool.old) }
    requires numbers_value { all_below (2 ^ 31) (stretch parameters.places lo count numbers.now) ≡ true }
    requires pool_value { all_below (lo + count) (stretch parameters.places lo count pool.old) ≡ true }
    requires numbers_in_bounds { (carried + stars_in without (stretch parameters.places lo count numbers.now) ≤ length waiting.old) × (length waiting.old ≤ 32768) }
    requires waiting_value { homes_up_to lo (take carried waiting.old) ≡ true }
    ensures { PlansStretch parameters lo count without carried numbers pool waiting planned result }
{
    if count <= 32 {
        let mut ends = [0u32; 32];
        return plan_pages(
            parameters, numbers, pool, waiting, planned, &mut ends, lo, count, without, carried,
        );
    }
    let mut ends = [0u32; 1024];
    plan_pages(
        parameters, numbers, pool, waiting, planned, &mut ends, lo, count, without, carried,
    )
}
