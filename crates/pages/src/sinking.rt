ghost use Rattle.pages.specs.Sinking.{PageAsked, PageWritten};

use crate::fault::PageFault;
use sinks::PageSink;

// Whether the sink would take a page of `len` bytes; a refusal holds the sink's own.
#[tactic(auto, using(sinks::proofs::Faults::full_from_said))]
pub fn takes_page<S: PageSink>(sink: &S, len: usize) -> Result<(), PageFault>
    ensures { PageAsked S.PageSink.meaning sink.now len result }
{
    Ok(sink.takes(len)?)
}

// Adds a page behind the sink's others, and answers its offset; a refusal holds the sink's own.
#[tactic(auto, using(sinks::proofs::Faults::full_from_said))]
pub fn write_page<S: PageSink>(sink: &mut S, page: &[u8]) -> Result<usize, PageFault>
    ensures { PageWritten S.PageStore.meaning S.PageSink.meaning sink.old page.now sink.new result }
{
    Ok(sink.write(page)?)
}
