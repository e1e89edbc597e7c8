ghost use Rattle.std.specs.Prelude.{◌≡◌};
ghost use Rattle.columns.specs.Columns.{layout_of};
ghost use Rattle.page_log.specs.Logs.{context};
ghost use Rattle.chunk.specs.Histories.{held, begun};
ghost use Rattle.chunk.specs.Stands.{Stands};

use crate::opening::Opening;
use body_coder::BodyCoder;
use columns::{Column, Settings, layout};
use kinds::Kind;
use ledger::Phase;
use level_coder::LevelCoder;
use open_page::OpenPage;
use page_log::PageLog;
use pages::Layout;
use sinks::{PageSink, PageStore};

// What a chunk holds. It stands apart from the chunk, whose type says that it stands to a history, since its parts change one
// after the other.
#[derive(Drop)]
pub struct State<K: Kind, L: LevelCoder, B: BodyCoder, S: PageSink> {
    pub(crate) opening: Opening<K, L, B, S>,
    pub(crate) sink: S,
    // how many pages the sink had at opening
    pub(crate) base: usize,
    pub(crate) phase: Phase,
    pub(crate) page: OpenPage,
    pub(crate) log: PageLog,
}

impl<K: Kind, L: LevelCoder, B: BodyCoder, S: PageSink> State<K, L, B, S> {
    pub(crate) fn new(column: Column, settings: Settings, sink: S) -> State<K, L, B, S>
        ensures holds { result.sink ≡ sink }
        ensures stands { Stands (begun (context K.Kind.meaning L.LevelCoder.coding B.BodyCoder.body column settings) (held S.PageStore.meaning sink)) result }
    {
        let layout = layout(column, settings);
        let base = sink.count();
        let opening = Opening::new(column, settings);
        let phase = opening.phase();
        State {
            opening,
            sink,
            base,
            phase,
            page: OpenPage::new::<K>(layout),
            log: PageLog::new(layout),
        }
    }

    // What a page's bytes depend on.
    pub(crate) fn layout(&self) -> Layout
        ensures { result ≡ layout_of self.now.opening.column self.now.opening.settings }
    {
        layout(self.opening.column, self.opening.settings)
    }
}
