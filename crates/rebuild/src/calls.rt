ghost use Rattle.std.specs.Prelude.{◌≡◌, ◌+◌, ◌&&◌, length, get_or, None};
ghost use Rattle.ledger.specs.Ledger.{close};
ghost use Rattle.rebuild.specs.Readings.{hold_bytes, reading_call, readings_calls, has_places as places_for, first_refusal as first_of};
ghost use Rattle.runs.specs.Runs.{call_of, calls_in, answer_in, answers_in};

use floats::DoubleBits;
use intake::Batch;
use level_data::LevelDataRef;
use refusals::ChunkFault;
use runs::{Answer, Call, Played};
use std::slice;

// Whether each of two lists has just the places that the calls need which write its readings.
pub(crate) fn have_places(
    holds: &[Option<DoubleBits>],
    calls: &[Played<DoubleBits>],
    read: &[Option<DoubleBits>],
    other_calls: &[Played<DoubleBits>],
) -> bool
    ensures { result ≡ (places_for calls.now holds.now && places_for «other_calls».now read.now) }
{
    has_places(calls, holds) && has_places(other_calls, read)
}

// Whether a list has one place for the call of each reading and one for the close, and no more.
fn has_places(calls: &[Played<DoubleBits>], holds: &[Option<DoubleBits>]) -> bool
    ensures { result ≡ places_for calls.now holds.now }
{
    match calls {
        [] => false,
        [_, rest @ ..] => rest.len() == holds.len(),
    }
}

// Lays the calls that write readings into a list that has just the places for them: a batch of one level for each, and then the
// close.
pub(crate) fn lay_calls<'a>(holds: &'a [Option<DoubleBits>], calls: &mut [Played<'a, DoubleBits>])
    ensures { length calls.old ≡ length holds.now + 1 → calls_in hold_bytes calls.new ≡ readings_calls holds.now }
{
    for at in 0..calls.len() {
        calls[at] = unplayed(call_at(holds, at));
    }
}

// The call of a place: a batch of the reading that stands there, and behind the readings the close.
fn call_at(holds: &[Option<DoubleBits>], at: usize) -> Call<'_, DoubleBits>
    ensures { call_of hold_bytes result ≡ get_or (readings_calls holds.now) at close }
{
    match holds.get(at) {
        Some(hold) => Call::Batch(batch(hold)),
        None => Call::Close,
    }
}

// A call that has no answer yet.
fn unplayed<'a>(call: Call<'a, DoubleBits>) -> Played<'a, DoubleBits>
    ensures { result.call ≡ call.entry }
{
    Played { call, answer: None }
}

// A reading as a batch: a null where it is missing.
fn batch(hold: &Option<DoubleBits>) -> Batch<'_, DoubleBits>
    ensures { call_of hold_bytes (Call.Batch result) ≡ reading_call hold.now }
{
    match hold {
        None => Batch {
            count: 1,
            defs: LevelDataRef::uniform(0, 1),
            reps: LevelDataRef::absent(),
            values: &[],
        },
        Some(hold) => Batch {
            count: 1,
            defs: LevelDataRef::uniform(1, 1),
            reps: LevelDataRef::absent(),
            values: slice::from_ref(hold),
        },
    }
}

// The first refusal that the calls of a list were answered, if there is one.
pub(crate) fn first_refusal(calls: &[Played<DoubleBits>]) -> Option<ChunkFault>
    ensures { result ≡ first_of (answers_in calls.now) }
{
    for played in calls {
        let refusal = refusal_of(&played.answer);
        if refusal.is_some() {
            return refusal;
        }
    }
    None
}

fn refusal_of(answer: &Option<Answer>) -> Option<ChunkFault>
    ensures { result ≡ first_of (answer_in answer.now) }
{
    match answer {
        None => None,
        Some(Answer::Batched(answer)) => answer.err(),
        Some(Answer::Ended(answer)) => answer.err(),
    }
}
