// Applying a plan: what the sources name is fetched through the pool, and the pages of the stretch are stored.
ghost use Rattle.std.specs.Prelude.{◌≡◌, map, ◌+◌, ◌*◌, ◌≤◌, length, take, drop, replicate};
ghost use Rattle.std.proofs.Math.Seq.{paste};
ghost use Rattle.pages.specs.Shape.{stretch};
ghost use Rattle.buffers.specs.Lists.{written};
ghost use Rattle.plan_transfer.specs.Sources.{named_item};

pub fn word_named(words: &[u64], source: u32, newword: u64) -> u64
    ensures { result ≡ named_item words.now newword source }
{
    if source == 0 {
        return 0;
    }
    let item = source as usize - 1;
    if item < words.len() {
        return words[item];
    }
    newword
}

pub fn number_named(numbers: &[u32], source: u32, newnumber: u32) -> u32
    ensures { result ≡ named_item numbers.now newnumber source }
{
    if source == 0 {
        return 0;
    }
    let item = source as usize - 1;
    if item < numbers.len() {
        return numbers[item];
    }
    newnumber
}

pub fn owner_named(owners: &[u8], source: u32, newowner: u8) -> u8
    ensures { result ≡ named_item owners.now newowner source }
{
    if source == 0 {
        return 0;
    }
    let item = source as usize - 1;
    if item < owners.len() {
        return owners[item];
    }
    newowner
}

// Item by item, so that the three columns branch on a source once. The sources stand where the numbers go.
pub fn fetch(
    numbers: &[u32],
    words: &[u64],
    owners: &[u8],
    pool: &mut [u32],
    waiting: &mut [u64],
    poolowners: &mut [u8],
    at: usize,
    items: usize,
    newnumber: u32,
    newword: u64,
    newowner: u8,
)
    requires in_bounds { at + items ≤ length pool.old }
    requires in_bounds_2 { at + items ≤ length waiting.old }
    requires in_bounds_3 { at + items ≤ length poolowners.old }
    ensures pool_after { pool.new ≡ paste pool.old at (map (named_item numbers.now newnumber) (drop at pool.old)) items }
    ensures waiting_after { waiting.new ≡ paste waiting.old at (map (named_item words.now newword) (drop at pool.old)) items }
    ensures poolowners_after { poolowners.new ≡ paste poolowners.old at (map (named_item owners.now newowner) (drop at pool.old)) items }
{
    for i in 0..items {
        let source = pool[at + i];
        waiting[at + i] = word_named(words, source, newword);
        poolowners[at + i] = owner_named(owners, source, newowner);
        pool[at + i] = number_named(numbers, source, newnumber);
    }
}

// The stretch of `count` pages from page lo becomes what the planned sources and separators say. The pool stays behind it.
pub fn apply(
    separators: &mut [u8],
    numbers: &mut [u32],
    words: &mut [u64],
    owners: &mut [u8],
    pool: &mut [u32],
    waiting: &mut [u64],
    poolowners: &mut [u8],
    planned: &[u8],
    places: usize,
    lo: usize,
    count: usize,
    newnumber: u32,
    newword: u64,
    newowner: u8,
)
    requires places_bound { (places ≤ 32) × (lo + count ≤ 1024) }
    requires count_in_bounds { (lo + count ≤ length separators.old) × (lo + count ≤ length planned.now) }
    requires places_in_bounds { ((lo + count) * places ≤ length numbers.old) × ((lo + count) * places ≤ length words.old) }
    requires places_in_bounds_2 { ((lo + count) * places ≤ length pool.old) × ((lo + count) * places ≤ length waiting.old) }
    requires places_in_bounds_3 { ((lo + count) * places ≤ length owners.old) × ((lo + count) * places ≤ length poolowners.old) }
    ensures separators_after { separators.new ≡ written lo (take count (drop lo planned.now)) separators.old }
    ensures numbers_after { numbers.new ≡ written (lo * places) (map (named_item numbers.old newnumber) (stretch places lo count pool.old)) numbers.old }
    ensures words_after { words.new ≡ written (lo * places) (map (named_item words.old newword) (stretch places lo count pool.old)) words.old }
    ensures owners_after { owners.new ≡ written (lo * places) (map (named_item owners.old newowner) (stretch places lo count pool.old)) owners.old }
    ensures pool_unchanged { drop ((lo + count) * places) pool.new ≡ drop ((lo + count) * places) pool.old }
{
    let at = lo * places;
    let items = count * places;
    fetch(
        numbers, words, owners, pool, waiting, poolowners, at, items, newnumber, newword, newowner,
    );
    let limit = count;
    page_store::store(
        separators, numbers, words, owners, pool, waiting, poolowners, planned, places, lo, count,
        limit, false,
    );
}

// Zeros in all three lists: the pool after a call that used it, and the places of an empty file.
pub fn clear(pool: &mut [u32], waiting: &mut [u64], poolowners: &mut [u8])
    ensures pool_after { pool.new ≡ replicate (length pool.old) 0 }
    ensures waiting_after { waiting.new ≡ replicate (length waiting.old) 0 }
    ensures poolowners_after { poolowners.new ≡ replicate (length poolowners.old) 0 }
{
    buffers::fill(pool, 0);
    buffers::fill(waiting, 0);
    buffers::fill(poolowners, 0);
}

// The same after a call that used little of the pool: blocks that hold zeros are read and not written. A shorter pool stays in the
// processor's first cache, where writing all of it costs less.
pub fn clear_used(pool: &mut [u32], waiting: &mut [u64], poolowners: &mut [u8])
    ensures pool_after { pool.new ≡ replicate (length pool.old) 0 }
    ensures waiting_after { waiting.new ≡ replicate (length waiting.old) 0 }
    ensures poolowners_after { poolowners.new ≡ replicate (length poolowners.old) 0 }
{
    if pool.len() < 4096 {
        clear(pool, waiting, poolowners);
        return;
    }
    buffers::clear(pool);
    buffers::clear(waiting);
    buffers::clear(poolowners);
}
