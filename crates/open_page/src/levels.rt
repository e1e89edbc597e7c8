ghost use Rattle.std.specs.Prelude.{◌≡◌, ◌≤◌, min, length, map, replicate, take};
ghost use Rattle.level_data.specs.Levels.{levels_of};
ghost use Rattle.ledger.specs.Batches.{natural, levels_at};
ghost use Rattle.open_page.specs.Opened.{Given};

use level_data::LevelDataRef;

// Levels as they are given, as many as there is room for; each 0 where the maximum is 0, whatever was given.
fn put_levels(given: LevelDataRef, max: u8, levels: &mut [u8])
    ensures { Given max (length levels.old) (levels_of given.entry) → levels.new ≡ levels_at max (length levels.old) (levels_of given.entry) }
{
    if max == 0 {
        return put_repeated(0, levels);
    }
    match given {
        LevelDataRef::Absent => (),
        LevelDataRef::Materialized(given) => put_listed(given, levels),
        LevelDataRef::Uniform { value, .. } => put_repeated(level_of(value), levels),
    }
}

// Levels that are given one by one, if there are as many as there is room for.
fn put_listed(given: &[i16], levels: &mut [u8])
    ensures { length given.now ≡ length levels.old → levels.new ≡ map (λ level. min (natural level) 255) given.now }
{
    if given.len() != levels.len() {
        return;
    }
    for (at, level) in levels.iter_mut().enumerate() {
        *level = level_of(given[at]);
    }
}

// One level at each place. Behind a `fill` of a level that is given, the search for a proof stops at a limit.
fn put_repeated(level: u8, levels: &mut [u8])
    ensures { levels.new ≡ replicate (length levels.old) level }
{
    levels.fill(level);
}

// A level, 0 for one below, and 255 for one above that.
fn level_of(given: i16) -> u8
    ensures { result ≡ min (natural given) 255 }
{
    // By `as`, which has no more to do where the number fits.
    given.clamp(0, 255) as u8
}

// So many levels, in room for those of the largest batch.
pub(crate) fn batch_levels(given: LevelDataRef, max: u8, count: usize) -> [u8; 256]
    ensures { count ≤ 256 → Given max count (levels_of given.entry) → take count result ≡ levels_at max count (levels_of given.entry) }
{
    let mut levels = [0; 256];
    put_levels(given, max, &mut levels[..count.min(256)]);
    levels
}
