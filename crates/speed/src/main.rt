// Writes a chunk as often as its input says, in batches of 256 levels, and reads its pages back: what compare/speed counts
// and times beside the Rust crate. The input is a line `KIND D R TIMES READS`, with `clock` behind it where the time is wanted,
// and three lines for definition levels, repetition levels and values. The answer is what was written and what was read.

#![tactic(auto)]

use std::process::ExitCode;

mod given;
mod typed;
mod work;

fn run(rt: &HostRuntime) -> anyhow::Result<()> {
    let given = given::read(rt)?;
    typed::run(rt, &given)
}

fn main(rt: HostRuntime) -> ExitCode {
    match run(&rt) {
        Ok(()) => ExitCode::SUCCESS,
        Err(e) => {
            let _ = eprintln!(rt; "speed: {e:#}");
            ExitCode::FAILURE
        }
    }
}
