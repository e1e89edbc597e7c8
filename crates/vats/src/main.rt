// Judges the vats of a day. Reads the day's log from standard input, a row for each reading: time, vat, hold temperature
// in degrees Celsius, where an empty cell is a missing reading and `nan` a failed probe. Writes each vat's readings to
// column chunks, and prints what their records say, and whether the vat may be released at the limit that the first
// argument gives, or at 72.0; and then for each chunk its pages, which of them may have a reading below the limit, and
// the record of the chunk that is rebuilt from them.

#![tactic(auto)]

use anyhow::Context;
use floats::{Bits, DoubleBits};
use release::Row;
use std::collections::BTreeMap;
use std::env;
use std::io::{BufRead, BufReader};
use std::num::f64_to_bits_with_nan;
use std::process::ExitCode;
use vat::Vat;

mod day;
mod hold_chunk;
mod report;
mod vat;

const HEADER: &str = "time,vat,hold";

fn limit(rt: &HostRuntime) -> anyhow::Result<DoubleBits> {
    let degrees = match env::args(rt)?.nth(1) {
        None => 72.0,
        Some(text) => text
            .as_str()
            .parse::<f64>()
            .ok()
            .filter(|degrees| degrees.is_finite())
            .context("the limit: expected degrees Celsius such as 72.0")?,
    };
    Ok(Bits(f64_to_bits_with_nan(degrees)))
}

fn read_day(rt: &HostRuntime) -> anyhow::Result<day::Day> {
    let heap = rt.alloc();
    let mut found = BTreeMap::new(heap);
    for (i, line) in BufReader::new(heap, rt.stdin())?.lines(heap).enumerate() {
        let line = line?;
        if i == 0 && line.as_str() == HEADER {
            continue;
        }
        let number = i.saturating_add(1);
        let row = Row::try_from(line.as_str()).context(format_args!("line {number}"))?;
        day::add(heap, &mut found, row)?;
    }
    Ok(found)
}

fn run(rt: &HostRuntime) -> anyhow::Result<()> {
    let heap = rt.alloc();
    let limit = limit(rt)?;
    let day = read_day(rt)?;
    // The chunks are reported as they are written, and shown behind all vats.
    let mut vats = String::new(heap);
    let mut chunks = String::new(heap);
    report::head(&mut vats, limit)?;
    for (name, holds) in day.iter() {
        let vat = Vat {
            name: name.as_str(),
            holds: holds.as_slice(),
            limit,
        };
        vat.write(heap, &mut vats, &mut chunks)?;
    }
    print!(rt; "{vats}{chunks}")?;
    Ok(())
}

// The error that `main` returned would be printed without the program's name.
fn main(rt: HostRuntime) -> ExitCode {
    match run(&rt) {
        Ok(()) => ExitCode::SUCCESS,
        Err(e) => {
            let _ = eprintln!(rt; "vats: {e:#}");
            ExitCode::FAILURE
        }
    }
}
