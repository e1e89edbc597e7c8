ghost use Rattle.sinks_tests.specs.Users.{WroteTwo};

use sinks::{PageSink, PageStore, SinkFault};

// Writes two pages, and reads the first of them back.
pub(crate) fn write_two<S: PageSink>(
    sink: &mut S,
    first: &[u8],
    second: &[u8],
    out: &mut [u8],
) -> Result<Option<usize>, SinkFault>
    ensures { WroteTwo S.PageStore.meaning S.PageSink.meaning sink.old first.now second.now out.old sink.new out.new result }
{
    let k = sink.count();
    sink.write(first)?;
    sink.write(second)?;
    Ok(sink.copy(k, out))
}
