ghost use Rattle.std.specs.Prelude.{◌≡◌, ◌+◌, length};
ghost use Rattle.std.specs.List.{slice_get};
ghost use Rattle.sinks.specs.Sinks.{Asked, Written};
ghost use Rattle.sinks.specs.Stores.{Copied};

use sinks::{PageSink, PageStore, SinkFault};

// A sink, and how many pages it had before.
#[derive(Drop)]
pub(crate) struct Spool<S> {
    pub(crate) sink: S,
    pub(crate) base: usize,
}

impl<S: PageSink> Spool<S> {
    pub(crate) fn open(sink: S) -> Spool<S>
        ensures holds { result.sink ≡ sink }
        ensures base { result.base ≡ length (S.PageStore.meaning.pages sink) }
    {
        let base = sink.count();
        Spool { sink, base }
    }

    pub(crate) fn takes(&self, len: usize) -> Result<(), SinkFault>
        ensures { Asked S.PageSink.meaning self.now.sink len result }
    {
        self.sink.takes(len)
    }

    pub(crate) fn append(&mut self, page: &[u8]) -> Result<usize, SinkFault>
        ensures written { Written S.PageStore.meaning S.PageSink.meaning self.old.sink page.now self.new.sink result }
        ensures base { self.new.base ≡ self.old.base }
    {
        self.sink.write(page)
    }

    // Copies the k-th of the pages that came since opening.
    pub(crate) fn read(&self, k: usize, out: &mut [u8]) -> Option<usize>
        ensures { Copied (slice_get (S.PageStore.meaning.pages self.now.sink) (self.now.base + k)) out.old out.new result }
    {
        if self.sink.count().saturating_sub(self.base) <= k {
            return None;
        }
        self.sink.copy(self.base + k, out)
    }

    pub(crate) fn into_sink(self) -> S
        ensures { result ≡ self.sink }
    {
        self.sink
    }
}
