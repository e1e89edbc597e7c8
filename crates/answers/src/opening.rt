use crate::given;
use anyhow::{Context, bail};
use columns::{Column, Mode, Settings};
use std::alloc::Global;

// What a chunk is opened with.
#[derive(Clone, Copy)]
pub struct Opening {
    pub kind: u8,
    pub column: Column,
    pub settings: Settings,
    pub is_legacy: bool,
    pub is_split: bool,
    pub area: usize,
}

impl Opening {
    pub fn read(heap: Global, line: &str) -> anyhow::Result<Opening> {
        let words: Vec<&str> = line.split(' ').collect(heap)?;
        let [
            "open",
            kind,
            width,
            max_def,
            max_rep,
            version,
            rows,
            size,
            mode,
            cut,
            levels,
            body,
            area,
        ] = words.as_slice()
        else {
            bail!("an opening has thirteen words");
        };
        Ok(Opening {
            kind: given::kind(kind)?,
            column: Column {
                width: width.parse::<usize>().context("a width")?,
                max_def_level: max_def.parse::<i16>().context("a maximum level")?,
                max_rep_level: max_rep.parse::<i16>().context("a maximum level")?,
            },
            settings: Settings {
                version: version.parse::<u8>().context("a version")?,
                row_limit: rows.parse::<usize>().context("a row limit")?,
                size_limit: size.parse::<usize>().context("a size limit")?,
                mode: if *mode == "page" {
                    Mode::Page
                } else {
                    Mode::Chunk
                },
                cut_length: cut_length(cut)?,
            },
            is_legacy: *levels == "legacy",
            is_split: *body == "split",
            area: area.parse::<usize>().context("an area")?,
        })
    }
}

fn cut_length(word: &str) -> anyhow::Result<Option<usize>> {
    if word == "-" {
        return Ok(None);
    }
    Ok(Some(word.parse::<usize>().context("a cut length")?))
}
