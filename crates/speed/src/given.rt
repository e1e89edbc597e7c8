use anyhow::Context;
use columns::Column;
use std::alloc::Global;
use std::io::{BufRead, BufReader, Lines, Stdin};

// What is to be written, and how often.
#[derive(Drop)]
pub struct Given {
    pub kind: u8,
    pub column: Column,
    pub times: usize,
    pub reads: usize,
    pub is_timed: bool,
    pub defs: Vec<i16>,
    pub reps: Vec<i16>,
    pub values: Vec<Vec<u8>>,
}

impl Given {
    // How many levels there are: one for each value where D is 0.
    pub fn count(&self) -> usize {
        if self.column.max_def_level == 0 {
            self.values.len()
        } else {
            self.defs.len()
        }
    }
}

pub fn read(rt: &HostRuntime) -> anyhow::Result<Given> {
    let heap = rt.alloc();
    let mut lines = Vec::new(heap);
    for line in BufReader::new(heap, rt.stdin())?.lines(heap) {
        lines.push(line?)?;
    }
    let [first, defs, reps, values] = lines.as_slice() else {
        anyhow::bail!("four lines are expected");
    };
    let words: Vec<&str> = first.as_str().split(' ').collect(heap)?;
    let [kind, max_def, max_rep, times, reads, rest @ ..] = words.as_slice() else {
        anyhow::bail!("five words are expected in the first line");
    };
    let kind = kind.parse::<u8>().context("a kind")?;
    Ok(Given {
        kind,
        column: Column {
            width: width(kind),
            max_def_level: max_def.parse::<i16>().context("a maximum level")?,
            max_rep_level: max_rep.parse::<i16>().context("a maximum level")?,
        },
        times: times.parse::<usize>().context("how often")?,
        reads: reads.parse::<usize>().context("how often")?,
        is_timed: !rest.is_empty(),
        defs: levels(heap, defs.as_str())?,
        reps: levels(heap, reps.as_str())?,
        values: parted(heap, values.as_str())?,
    })
}

// Bytes of a value of INT32, DOUBLE or BYTE_ARRAY.
fn width(kind: u8) -> usize {
    match kind {
        1 => 4,
        6 => 8,
        _ => 0,
    }
}

// Levels as digits; - are none.
fn levels(heap: Global, text: &str) -> anyhow::Result<Vec<i16>> {
    let mut levels = Vec::new(heap);
    for byte in text.as_bytes() {
        if byte.is_ascii_digit() {
            levels.push(i16::from(*byte & 15))?;
        }
    }
    Ok(levels)
}

// Values in hexadecimal, parted by commas.
fn parted(heap: Global, text: &str) -> anyhow::Result<Vec<Vec<u8>>> {
    let mut values = Vec::new(heap);
    for word in text.split(',') {
        values.push(hex::decode(heap, word).context("a value in hexadecimal")?)?;
    }
    Ok(values)
}
