ghost use Rattle.std.specs.Prelude.{◌≡◌};
ghost use Rattle.page_log.specs.Logs.{context};
ghost use Rattle.runs.specs.Runs.{lent_calls, calls_in, answers_in};
ghost use Rattle.runs.specs.Both.{RanBoth};

use crate::call::Played;
use crate::replaying::{Run, replay};
use body_coder::BodyCoder;
use columns::{Column, Settings};
use kinds::{Kind, ValueOf};
use level_coder::LevelCoder;
use sinks::PageSink;

// Opens two chunks of one column, each with settings, a sink, coders and a type of values of its own, and plays every call of a list
// on each, as `replay` does, the first with the scratch that is given and the second with what the first left of it. Whatever was
// called, and however it was cut into pages: where both took the same and both give their records, these have the same figures.
#[tactic(auto, using(crate::proofs::Agreeing::ran_both))]
pub fn replay_both<
    K: Kind,
    L: LevelCoder,
    B: BodyCoder,
    S: PageSink,
    V: ValueOf<K> + Copy,
    M: LevelCoder,
    C: BodyCoder,
    T: PageSink,
    W: ValueOf<K> + Copy,
>(
    column: Column,
    settings: Settings,
    sink: S,
    calls: &mut [Played<V>],
    other_settings: Settings,
    other_sink: T,
    other_calls: &mut [Played<W>],
    scratch: &mut [u8],
) -> (Run<K, L, B, S>, Run<K, M, C, T>)
    ensures both { RanBoth
        (context K.Kind.meaning L.LevelCoder.coding B.BodyCoder.body column settings) sink (calls_in V.ValueOf.bytes calls.old) (answers_in calls.new)
        (context K.Kind.meaning M.LevelCoder.coding C.BodyCoder.body column «other_settings») «other_sink» (calls_in W.ValueOf.bytes «other_calls».old) (answers_in «other_calls».new)
        scratch.old result.0 result.1 scratch.new }
    ensures calls { lent_calls calls.new ≡ lent_calls calls.old }
    ensures other_calls { lent_calls «other_calls».new ≡ lent_calls «other_calls».old }
{
    let run = replay(column, settings, sink, calls, scratch);
    let other = replay(column, other_settings, other_sink, other_calls, scratch);
    (run, other)
}
