// The survey of a stretch: its stars' homes are found and kept, and each page is tested upward.
ghost use Rattle.std.specs.Prelude.{◌≡◌, ◌-◌, ◌*◌, ◌≤◌, ◌<◌, length};
ghost use Rattle.placement.specs.Lent.{held, before};
ghost use Rattle.placement.specs.Ready.{Ready};
ghost use Rattle.reach.specs.Known.{Known};
ghost use Rattle.reach.specs.Reach.{first_unsound_lem};
ghost use Rattle.reach.specs.Shape.{homes_kept};

use hashing::Geometry;

// The survey of a stretch in which a page is known: that one is not tested again.
fn survey_around(
    table: &[u32; 90],
    geometry: Geometry,
    separators: &[u8],
    numbers: &[u32],
    words: &[u64],
    owners: &[u8],
    homes: &mut [u32],
    from: usize,
    stop: usize,
    known: usize,
) -> usize
    requires ready { Ready geometry table.now (held separators.now numbers.now words.now owners.now) }
    requires homes_len { length homes.old ≡ geometry.parameters.pages * geometry.parameters.places }
    requires from_le_known { (from ≤ known) × (known < stop) }
    requires stop_le_pages { stop ≤ geometry.parameters.pages }
    requires known { Known geometry.parameters geometry.growth (held separators.now numbers.now words.now owners.now) homes.old known }
    ensures value { result ≡ first_unsound_lem geometry.parameters geometry.growth (held separators.now numbers.now words.now owners.now) from (stop - from) }
    ensures homes_after { result ≡ stop → homes.new ≡ homes_kept geometry from stop numbers.now homes.old }
{
    let places = geometry.parameters.places as usize;
    let unsound = soundness::survey(
        table,
        geometry,
        separators,
        numbers,
        words,
        owners,
        homes,
        from * places,
        from,
        known,
    );
    if unsound < known {
        return unsound;
    }
    let next = known + 1;
    soundness::survey(
        table,
        geometry,
        separators,
        numbers,
        words,
        owners,
        homes,
        next * places,
        next,
        stop,
    )
}

// The first unsound page from `from` up to the one before `stop`, or `stop`.
pub fn survey_pages(
    table: &[u32; 90],
    geometry: Geometry,
    separators: &[u8],
    numbers: &[u32],
    words: &[u64],
    owners: &[u8],
    homes: &mut [u32],
    from: usize,
    stop: usize,
    known: usize,
) -> usize
    requires ready { Ready geometry table.now (held separators.now numbers.now words.now owners.now) }
    requires homes_len { length homes.old ≡ geometry.parameters.pages * geometry.parameters.places }
    requires from_le_stop { from ≤ stop }
    requires stop_le_pages { stop ≤ geometry.parameters.pages }
    requires known { Known geometry.parameters geometry.growth (held separators.now numbers.now words.now owners.now) homes.old known }
    ensures value { result ≡ first_unsound_lem geometry.parameters geometry.growth (held separators.now numbers.now words.now owners.now) from (stop - from) }
    ensures homes_after { result ≡ stop → homes.new ≡ homes_kept geometry from stop numbers.now homes.old }
{
    if from <= known && known < stop {
        return survey_around(
            table, geometry, separators, numbers, words, owners, homes, from, stop, known,
        );
    }
    let places = geometry.parameters.places as usize;
    soundness::survey(
        table,
        geometry,
        separators,
        numbers,
        words,
        owners,
        homes,
        from * places,
        from,
        stop,
    )
}
