// Answers cases on values, levels and chunks, a line for each line of standard input, in the words of compare/README.md: so
// that the answers can be laid beside those of the Rust crate. A line that begins with # answers itself.

#![tactic(auto)]

use anyhow::Context;
use std::alloc::Global;
use std::io;
use std::io::{BufRead, BufReader, BufWriter, Write};
use std::process::ExitCode;

mod answer;
mod chunk_cases;
mod given;
mod kind;
mod level_cases;
mod opening;
mod report;
mod values;

// Prints the answers to a chunk's lines, and lets go of the lines.
fn end_chunk(heap: Global, chunk: &mut Vec<String>, out: &mut impl Write) -> anyhow::Result<()> {
    for said in chunk_cases::answer(heap, chunk.as_slice())?.iter() {
        writeln!(out, "{said}")?;
    }
    chunk.clear();
    Ok(())
}

// Whether the line is one on the chunk that is open.
fn goes_on(line: &str) -> bool {
    matches!(line, "cut" | "close" | "report")
        || line.starts_with("batch ")
        || line.starts_with('#')
}

fn run(rt: &HostRuntime) -> anyhow::Result<()> {
    let heap = rt.alloc();
    let mut out = BufWriter::new(heap, io::writer(rt))?;
    let mut chunk = Vec::new(heap);
    for (i, line) in BufReader::new(heap, rt.stdin())?.lines(heap).enumerate() {
        let line = line?;
        let number = i.saturating_add(1);
        if goes_on(line.as_str()) && !chunk.is_empty() {
            chunk.push(line)?;
            continue;
        }
        end_chunk(heap, &mut chunk, &mut out).context(format_args!("above line {number}"))?;
        if line.as_str().starts_with("open ") {
            chunk.push(line)?;
        } else {
            let said = answer::answer(heap, line.as_str()).context(format_args!("line {number}"))?;
            writeln!(out, "{said}")?;
        }
    }
    end_chunk(heap, &mut chunk, &mut out)?;
    out.flush()?;
    Ok(())
}

fn main(rt: HostRuntime) -> ExitCode {
    match run(&rt) {
        Ok(()) => ExitCode::SUCCESS,
        Err(e) => {
            let _ = eprintln!(rt; "answers: {e:#}");
            ExitCode::FAILURE
        }
    }
}
