ghost use Rattle.std.specs.Prelude.{◌≡◌, true};
ghost use Rattle.metrics.specs.Metrics.{kept};
ghost use Rattle.ledger.specs.Laws.{Exactly};
ghost use Rattle.page_log.specs.Records.{said_record};
ghost use Rattle.chunk.specs.Histories.{History};
ghost use Rattle.chunk.specs.Stands.{Stands};
ghost use Rattle.runs.specs.Both.{Agreed, SameFigures};

use body_coder::BodyCoder;
use buffers::Buffer;
use chunk::ColumnChunk;
use kinds::Kind;
use level_coder::LevelCoder;
use metrics::LevelHistogram;
use page_log::Record;
use refusals::ChunkFault;
use sinks::PageSink;

// Whether two chunks of one kind have the same figures, once both give their records. Coders, settings and sinks may differ,
// and so may the pages.
pub fn agree<
    K: Kind,
    L: LevelCoder,
    B: BodyCoder,
    S: PageSink,
    M: LevelCoder,
    C: BodyCoder,
    T: PageSink,
>(one: &ColumnChunk<K, L, B, S>, other: &ColumnChunk<K, M, C, T>) -> Result<bool, ChunkFault>
    ensures { (h k : History) → Stands h one.now.state → Stands k other.now.state → Agreed h k result }
{
    let one = one.record()?;
    let other = other.record()?;
    Ok(has_same_figures(&one, &other))
}

// Whether two figures are the same value, byte for byte.
fn is_same_value(one: &Option<Buffer<128>>, other: &Option<Buffer<128>>) -> bool
    ensures { Exactly (result ≡ true) (kept one.now ≡ kept other.now) }
{
    match (one, other) {
        (None, None) => true,
        (Some(one), Some(other)) => one.as_slice() == other.as_slice(),
        _ => false,
    }
}

// Whether two rows of level counts are the same.
fn is_same_histogram(one: &Option<LevelHistogram>, other: &Option<LevelHistogram>) -> bool
    ensures { Exactly (result ≡ true) (one.now ≡ other.now) }
{
    match (one, other) {
        (None, None) => true,
        (Some(one), Some(other)) => one.as_slice() == other.as_slice(),
        _ => false,
    }
}

// Whether two records have the same figures, byte for byte. The rest of them, the bytes and the orders, tells how the pages were cut.
pub fn has_same_figures(one: &Record, other: &Record) -> bool
    ensures { Exactly (result ≡ true) (SameFigures (said_record one.now) (said_record other.now)) }
{
    one.rows == other.rows
        && one.levels == other.levels
        && one.nulls == other.nulls
        && one.nans == other.nans
        && is_same_histogram(
            &one.repetition_level_histogram,
            &other.repetition_level_histogram,
        )
        && is_same_histogram(
            &one.definition_level_histogram,
            &other.definition_level_histogram,
        )
        && is_same_value(&one.min, &other.min)
        && is_same_value(&one.max, &other.max)
}
