// The front of a stretch planned without a star: the pages up to the first one past which nothing changes, if the later ones are the rule's.
ghost use Rattle.std.specs.Prelude.{◌≡◌, true, ◌-◌, ◌+◌, ◌*◌, ◌≤◌, ◌<◌, length, get_or, take};
ghost use Rattle.hashing.specs.Limits.{valid_parameters};
ghost use Rattle.page_separator.specs.Probes.{Probing};
ghost use Rattle.page_plan.specs.Gather.{stretch_words};
ghost use Rattle.page_plan.specs.Plans.{Plannable, Settleable, PlansPage};
ghost use Rattle.removal_reach.specs.Changed.{Changed};

use hashing::Parameters;

// One page of the plan. The words that pass on stand from the answer up to `reach`.
fn plan_page(
    parameters: Parameters,
    pool: &mut [u32],
    waiting: &mut [u64],
    planned: &mut [u8],
    from: usize,
    reach: usize,
    page: usize,
) -> usize
    requires parameters_value { valid_parameters parameters ≡ true }
    requires probing { Probing page from reach waiting.old }
    requires page_in_bounds { (page < length planned.old) × (page * parameters.places + parameters.places ≤ length pool.old) }
    ensures { PlansPage parameters page from reach waiting pool planned result }
{
    let places = parameters.places as usize;
    let mut slots = [0u64; 32];
    let settled = page_plan::settle_alone(parameters, waiting, from, reach, page, &mut slots);
    planned[page] = settled.separator as u8;
    page_plan::store_sources(pool, &slots, page * places, places, settled.kept);
    settled.from
}

// Settles pages until they hold one star fewer than before, at most `count`; the answer is how many. `from` counts the words that stayed.
fn settle_changed(
    parameters: Parameters,
    numbers: &[u32],
    pool: &mut [u32],
    waiting: &mut [u64],
    planned: &mut [u8],
    ends: &[u32],
    lo: usize,
    count: usize,
) -> usize
    requires settleable { Settleable parameters lo count 0 (get_or ends.now (count - 1) 0) pool.old waiting.old planned.old ends.now }
    requires places_in_bounds { (lo + count) * parameters.places ≤ length numbers.now }
    ensures { Changed parameters lo count (take (get_or ends.now (count - 1) 0) waiting.old) numbers.now
        pool.old pool.new planned.old planned.new result }
{
    let places = parameters.places as usize;
    let mut from = 0;
    let mut stored = 0;
    for v in 0..count {
        let page = lo + v;
        let reach = ends[v] as usize;
        from = plan_page(parameters, pool, waiting, planned, from, reach, page);
        stored += page_plan::count_stars(numbers, page * places, (page + 1) * places, 0);
        if from + 1 == stored {
            return v + 1;
        }
    }
    count
}

// Plans the first pages of a stretch, whose homes the pool holds, over the stars of all its pages but `without`; the answer is how many.
pub fn plan_changed(
    parameters: Parameters,
    numbers: &[u32],
    pool: &mut [u32],
    waiting: &mut [u64],
    planned: &mut [u8],
    lo: usize,
    count: usize,
    without: u32,
) -> usize
    requires { Plannable parameters lo count without 0 numbers.now pool.old waiting.old planned.old }
    ensures { Changed parameters lo count (stretch_words parameters.places lo count without numbers.now pool.old) numbers.now
        pool.old pool.new planned.old planned.new result }
{
    let places = parameters.places as usize;
    let mut ends = [0u32; 1024];
    page_plan::gather(
        numbers, pool, waiting, &mut ends, places, lo, count, without, 0,
    );
    settle_changed(
        parameters, numbers, pool, waiting, planned, &ends, lo, count,
    )
}
