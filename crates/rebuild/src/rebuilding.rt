ghost use Rattle.std.specs.Prelude.{◌≡◌, true};
ghost use Rattle.floats.specs.Floats.{double};
ghost use Rattle.ledger.specs.Laws.{Exactly};
ghost use Rattle.page_log.specs.Logs.{context};
ghost use Rattle.rebuild.specs.Readings.{readings_column};
ghost use Rattle.rebuild.specs.Rebuilt.{Rebuilds, RecordsAgree};

use crate::calls::{first_refusal, have_places, lay_calls};
use crate::unbuilt::Unbuilt;
use body_coder::BodyCoder;
use columns::{Column, Settings};
use floats::{Double, DoubleBits};
use level_coder::LevelCoder;
use page_log::Record;
use refusals::ChunkFault;
use runs::{Played, Run, has_same_figures, replay_both};
use sinks::PageSink;

// A DOUBLE for each reading that is there, and a null for a missing one.
pub const COLUMN: Column = Column {
    width: 8,
    max_def_level: 1,
    max_rep_level: 0,
};

// A chunk of readings and the one that was rebuilt from its pages, and whether their records have the same figures.
#[derive(Drop)]
pub struct Rebuilding<
    L: LevelCoder,
    B: BodyCoder,
    S: PageSink,
    M: LevelCoder,
    C: BodyCoder,
    T: PageSink,
> {
    pub written: Run<Double, L, B, S>,
    pub rebuilt: Run<Double, M, C, T>,
    pub agrees: bool,
}

// Writes readings to a chunk, and what was read of such a chunk's pages to another, each with settings, coders and a sink of its
// own; each reading is a batch of one level. The two records agree exactly if the readings have the same figures, so they do where
// those that were read are those that were written.
//
// The calls are laid into the two lists, each with one place for each reading and one for the close, and each call gets its answer
// there. With fewer places or more it is refused (`Places`), and the lists are as they were. Else every call is played, and it is
// refused for the first refusal among the answers (`Refused`): 21 where settings are not allowed; where a page cannot be written,
// 22 of the next reading, or, if there is none, 24 or 25 of the close. Then the lists keep calls and answers. Where it is refused
// there are no chunks, the sinks are given up, and nothing is said of the bytes in the memory that they were lent.
pub fn rebuild<
    'a,
    L: LevelCoder,
    B: BodyCoder,
    S: PageSink + Drop,
    M: LevelCoder,
    C: BodyCoder,
    T: PageSink + Drop,
>(
    holds: &'a [Option<DoubleBits>],
    settings: Settings,
    sink: S,
    calls: &mut [Played<'a, DoubleBits>],
    read: &'a [Option<DoubleBits>],
    other_settings: Settings,
    other_sink: T,
    other_calls: &mut [Played<'a, DoubleBits>],
) -> Result<Rebuilding<L, B, S, M, C, T>, Unbuilt>
    ensures { Rebuilds (context double L.LevelCoder.coding B.BodyCoder.body readings_column settings) (context double M.LevelCoder.coding C.BodyCoder.body readings_column «other_settings»)
        sink «other_sink» holds.now read.now calls.old «other_calls».old result calls.new «other_calls».new }
{
    if !have_places(holds, calls, read, other_calls) {
        return Err(Unbuilt::Places);
    }
    lay_calls(holds, calls);
    lay_calls(read, other_calls);
    let (written, rebuilt) = replay_both(
        COLUMN,
        settings,
        sink,
        calls,
        other_settings,
        other_sink,
        other_calls,
        &mut [0; 9227],
    );
    if let Some(fault) = first_refusal(calls).or(first_refusal(other_calls)) {
        return Err(Unbuilt::Refused(fault));
    }
    let agrees = records_agree(&written.record, &rebuilt.record);
    Ok(Rebuilding {
        written,
        rebuilt,
        agrees,
    })
}

// Whether two records agree: both are there, and they have the same figures.
fn records_agree(one: &Result<Record, ChunkFault>, other: &Result<Record, ChunkFault>) -> bool
    ensures { Exactly (result ≡ true) (RecordsAgree one.now other.now) }
{
    match (one, other) {
        (Ok(one), Ok(other)) => has_same_figures(one, other),
        _ => false,
    }
}
