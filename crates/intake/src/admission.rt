ghost use Rattle.std.specs.Prelude.{◌≡◌, OnOk};
ghost use Rattle.ledger.specs.Batches.{Admitted};
ghost use Rattle.intake.specs.Admitting.{batch_of, admission, level_admission, value_admission, AdmitNumbered};

use crate::batch::Batch;
use crate::intake::Intake;
use crate::values::weigh;
use kinds::{Kind, ValueOf};
use pages::{Layout, PageFault};
use refusals::ChunkFault;

// What a batch needs, or the first refusal that it meets by itself.
#[tactic(auto, using(crate::proofs::Admits::admit_numbered))]
pub fn admit<K: Kind, V: ValueOf<K>>(layout: Layout, batch: Batch<V>) -> Result<Intake, ChunkFault>
    ensures answer { result ≡ admission layout (batch_of V.ValueOf.bytes batch.entry) }
    ensures numbers { AdmitNumbered }
    ensures admits { OnOk result (Admitted layout (batch_of V.ValueOf.bytes batch.entry)) }
{
    admit_levels::<K, V>(layout, batch)?;
    admit_values::<K, V>(layout, batch)
}

// The tests of the levels.
fn admit_levels<K: Kind, V: ValueOf<K>>(layout: Layout, batch: Batch<V>) -> Result<(), ChunkFault>
    ensures { result ≡ level_admission layout (batch_of V.ValueOf.bytes batch.entry) }
{
    let defs = batch.defs_in(layout);
    let reps = batch.reps_in(layout);
    if batch.count > 256 {
        return Err(ChunkFault::BatchLevels);
    }
    if defs.is_absent() || reps.is_empty() {
        return Err(ChunkFault::LevelsAbsent);
    }
    if defs.is_miscounted(batch.count) || reps.is_miscounted(batch.count) {
        return Err(ChunkFault::LevelCount);
    }
    // Two steps, since of an `or_else` the proof does not find which kind has the stray.
    if let Some(at) = defs.find_stray() {
        return Err(ChunkFault::LevelRange(at));
    }
    if let Some(at) = reps.find_stray() {
        return Err(ChunkFault::LevelRange(at));
    }
    if reps.is_late() {
        return Err(ChunkFault::FirstRepetition);
    }
    Ok(())
}

// The tests of the values that are needed.
#[tactic(auto, using(crate::proofs::Admits::value_steps))]
fn admit_values<K: Kind, V: ValueOf<K>>(
    layout: Layout,
    batch: Batch<V>,
) -> Result<Intake, ChunkFault>
    ensures { result ≡ value_admission layout (batch_of V.ValueOf.bytes batch.entry) }
{
    let needed = batch.needed_in(layout);
    let values = batch.values.get(..needed).ok_or(ChunkFault::FewValues)?;
    let plain = weigh::<K, V>(layout.width, values)?;
    if plain > 4096 {
        return Err(ChunkFault::Page(PageFault::PlainBytes));
    }
    Ok(Intake {
        values: needed,
        plain,
    })
}
