use crate::given::Given;
use crate::work::{Work, repeat};
use anyhow::bail;
use byte_kinds::ByteArray;
use floats::{Bits, Double};
use ints::Int32;
use kinds::{Kind, ValueOf};
use words::Word;

// Does the work with values of the kind's type.
pub fn run(rt: &HostRuntime, given: &Given) -> anyhow::Result<()> {
    let heap = rt.alloc();
    let mut bytes = Vec::new(heap);
    for value in given.values.iter() {
        bytes.push(value.as_slice())?;
    }
    match given.kind {
        1 => {
            let list: Vec<i32> = bytes.iter().map(|value| i32::read(value)).collect(heap)?;
            run_at::<Int32, i32>(rt, given, list.as_slice())
        }
        6 => {
            let list: Vec<Bits<u64>> = bytes
                .iter()
                .map(|value| Bits(u64::read(value)))
                .collect(heap)?;
            run_at::<Double, Bits<u64>>(rt, given, list.as_slice())
        }
        8 => run_at::<ByteArray, &[u8]>(rt, given, bytes.as_slice()),
        _ => bail!("no kind that is known here"),
    }
}

fn run_at<K: Kind, V: ValueOf<K> + Copy>(
    rt: &HostRuntime,
    given: &Given,
    values: &[V],
) -> anyhow::Result<()> {
    let work = Work {
        column: given.column,
        count: given.count(),
        defs: given.defs.as_slice(),
        reps: given.reps.as_slice(),
        values,
    };
    repeat::<K, V>(rt, work, given)
}
