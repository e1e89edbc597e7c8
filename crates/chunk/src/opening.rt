ghost use Rattle.std.specs.Prelude.{◌≡◌, length};
ghost use Rattle.ledger.specs.Context.{accepted};
ghost use Rattle.ledger.specs.Runs.{opening};
ghost use Rattle.page_log.specs.Logs.{context};

use body_coder::BodyCoder;
use columns::{Column, Settings, check};
use kinds::Kind;
use ledger::Phase;
use level_coder::LevelCoder;
use sinks::{PageSink, PageStore};
use std::marker::PhantomData;

// What a chunk is opened with: a column and settings, and by its type the kind, the coders and the sink. It never changes. Its
// facts name the meanings of these, so that a chunk's type has them, and a contract's words take the chunk alone.
#[derive(Drop)]
pub struct Opening<K: Kind, L: LevelCoder, B: BodyCoder, S: PageSink> {
    kind: PhantomData<K>,
    level_coder: PhantomData<L>,
    body_coder: PhantomData<B>,
    sink: PhantomData<S>,
    pub(crate) column: Column,
    pub(crate) settings: Settings,
    is_accepted: bool,
    ghost accepted: { is_accepted ≡ accepted (context K.Kind.meaning L.LevelCoder.coding B.BodyCoder.body column settings) },
    ghost paired: { (s : S) → length (S.PageStore.meaning.offsets s) ≡ length (S.PageStore.meaning.pages s) },
}

impl<K: Kind, L: LevelCoder, B: BodyCoder, S: PageSink> Opening<K, L, B, S> {
    pub(crate) fn new(column: Column, settings: Settings) -> Opening<K, L, B, S>
        ensures column { result.column ≡ column }
        ensures settings { result.settings ≡ settings }
    {
        Opening {
            kind: PhantomData,
            level_coder: PhantomData,
            body_coder: PhantomData,
            sink: PhantomData,
            column,
            settings,
            is_accepted: check::<K, L, B>(column, settings).is_ok(),
        }
    }

    // The phase that a chunk opens in.
    pub(crate) fn phase(&self) -> Phase
        ensures { result ≡ opening (context K.Kind.meaning L.LevelCoder.coding B.BodyCoder.body self.now.column self.now.settings) }
    {
        if self.is_accepted {
            Phase::Open
        } else {
            Phase::Refused
        }
    }
}
