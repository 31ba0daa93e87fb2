// The stars of sound pages placed anew, block by block. A block ends at a page whose stored separator is 2^k − 1: the rule carries nothing past it,
// and the stars that stand above it are homed above it.
ghost use Rattle.std.specs.Prelude.{◌≡◌, true, ◌+◌, ◌*◌, drop};
ghost use Rattle.hashing.specs.Limits.{valid_parameters};
ghost use Rattle.placement.specs.Rule.{pages};
ghost use Rattle.placement.specs.File.{gathered, replaced};
ghost use Rattle.placement.specs.Hash.{hash_of};
ghost use Rattle.placement.specs.Shape.{homes_of};
ghost use Rattle.placement.specs.Lent.{held, before, after};
ghost use Rattle.reach.specs.Reach.{first_unsound_lem, all_stars};
ghost use Rattle.clean_test.specs.Raising.{Homed, first_raisable_lem};
ghost use Rattle.growth_in_place.specs.Blocks.{Placeable, SoundBlock};

use hashing::Geometry;

// Whether a block stays as it is: none of its separators could be one greater. A long block is not asked, as each of its stars may have passed
// many pages.
fn stays(
    geometry: Geometry,
    separators: &[u8],
    numbers: &[u32],
    homes: &[u32],
    lo: usize,
    count: usize,
) -> bool
    requires parameters_value { valid_parameters geometry.parameters ≡ true }
    requires homed { Homed geometry separators.now numbers.now homes.now lo (lo + count) }
    ensures { result ≡ true → first_raisable_lem geometry separators.now numbers.now lo (lo + count) ≡ lo + count }
{
    if 64 < count {
        return false;
    }
    let stop = lo + count;
    clean_test::first_raisable(geometry, separators, numbers, homes, lo, stop) == stop
}

// The block of `count` pages from page lo. A page by itself whose separator is 2^k − 1 stays: all its stars are homed there, and fit.
fn replace_block(
    geometry: Geometry,
    separators: &mut [u8],
    numbers: &mut [u32],
    words: &mut [u64],
    owners: &mut [u8],
    pool: &mut [u32],
    waiting: &mut [u64],
    poolowners: &mut [u8],
    lo: usize,
    count: usize,
)
    requires { SoundBlock geometry lo count (held separators.old numbers.old words.old owners.old) pool.old waiting.old poolowners.old }
    ensures owners_value { after separators numbers words owners ≡ replaced geometry.parameters.places (before separators numbers words owners) lo
        (pages (hash_of geometry.parameters geometry.growth) lo count (gathered geometry.parameters.places (before separators numbers words owners) lo count)) }
    ensures pool_unchanged { drop ((lo + count) * geometry.parameters.places) pool.new ≡ drop ((lo + count) * geometry.parameters.places) pool.old }
{
    let parameters = geometry.parameters;
    if count == 1 && separators[lo] == placement::top_of(parameters) {
        return;
    }
    if stays(geometry, separators, numbers, pool, lo, count) {
        return;
    }
    removal_reach::replace_stretch(
        parameters, separators, numbers, words, owners, pool, waiting, poolowners, lo, count, 0,
    );
}

// The stars of a file of sound pages placed anew by the rule; the pool holds the homes of its items.
pub fn replace_blocks(
    geometry: Geometry,
    separators: &mut [u8],
    numbers: &mut [u32],
    words: &mut [u64],
    owners: &mut [u8],
    pool: &mut [u32],
    waiting: &mut [u64],
    poolowners: &mut [u8],
)
    requires placeable { Placeable geometry (held separators.old numbers.old words.old owners.old) pool.old waiting.old poolowners.old }
    requires pages_value { first_unsound_lem geometry.parameters geometry.growth (held separators.old numbers.old words.old owners.old) 0 geometry.parameters.pages ≡ geometry.parameters.pages }
    requires pool_value { pool.old ≡ homes_of geometry.parameters geometry.growth numbers.old }
    ensures { after separators numbers words owners ≡ replaced geometry.parameters.places (before separators numbers words owners) 0
        (pages (hash_of geometry.parameters geometry.growth) 0 geometry.parameters.pages (all_stars geometry.parameters (before separators numbers words owners))) }
{
    let top = placement::top_of(geometry.parameters);
    let pages = geometry.parameters.pages as usize;
    let mut lo = 0;
    while lo < pages {
        let stop = reach::stretch_end(separators, top, lo) + 1;
        replace_block(
            geometry,
            separators,
            numbers,
            words,
            owners,
            pool,
            waiting,
            poolowners,
            lo,
            stop - lo,
        );
        lo = stop;
    }
}
