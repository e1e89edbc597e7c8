ghost use Rattle.std.specs.Prelude.{◌≡◌, Some};
ghost use Rattle.refusals.specs.Refusals.{said_chunk, message_chunk};
ghost use Rattle.refusals.specs.declared.fault.ChunkFault.TheVariants.{Page};

use pages::PageFault;
use sinks::{Fault, Layer, Said};
use std::error::Error;
use std::fmt;

// Why a chunk refuses. What the page layer refused is held whole, and in it what the sink refused.
#[derive(Clone, Copy, PartialEq, Eq, Debug)]
pub enum ChunkFault {
    // a width or a maximum level that is not allowed
    Column,
    // a number outside its limits, or a coder that does not go with the version or the width
    Settings,
    // more levels in a batch than it may have
    BatchLevels,
    // levels that are needed are absent, or repetition levels are empty
    LevelsAbsent,
    // a list of levels has another count than the batch
    LevelCount,
    // the first level that is below 0 or above its maximum
    LevelRange(usize),
    // the first repetition level is not 0
    FirstRepetition,
    // fewer values than needed
    FewValues,
    // the first needed value of wrong length
    ValueLength(usize),
    Closed,
    // a due page waits to be cut
    PageWaits,
    // the chunk has all the pages that it may have
    Pages,
    // the chunk is open, or its opening was refused
    NoRecord,
    Page(PageFault),
}

impl Fault for ChunkFault {
    ghost meaning = { said_chunk };

    fn said(self) -> Said {
        let (number, position) = match self {
            ChunkFault::Column => (1, 0),
            ChunkFault::Settings => (2, 0),
            ChunkFault::BatchLevels => (4, 0),
            ChunkFault::LevelsAbsent => (5, 0),
            ChunkFault::LevelCount => (6, 0),
            ChunkFault::LevelRange(at) => (7, at),
            ChunkFault::FirstRepetition => (8, 0),
            ChunkFault::FewValues => (9, 0),
            ChunkFault::ValueLength(at) => (10, at),
            ChunkFault::Closed => (21, 0),
            ChunkFault::PageWaits => (22, 0),
            ChunkFault::Pages => (24, 0),
            ChunkFault::NoRecord => (26, 0),
            ChunkFault::Page(fault) => return fault.said(),
        };
        Said {
            number,
            layer: Layer::Chunk,
            position,
        }
    }
}

impl fmt::Display for ChunkFault {
    ghost output = { λ e. Some (message_chunk e) };

    fn fmt<W: fmt::Write>(&self, f: &mut fmt::Formatter<W>) -> fmt::Result {
        match self {
            ChunkFault::Column => write!(f, "a width or a maximum level is not allowed"),
            ChunkFault::Settings => write!(f, "a setting or a coder is not allowed"),
            ChunkFault::BatchLevels => write!(f, "the batch has too many levels"),
            ChunkFault::LevelsAbsent => write!(f, "levels that are needed are absent"),
            ChunkFault::LevelCount => write!(
                f,
                "a list of levels has another count than the batch"
            ),
            ChunkFault::LevelRange(at) => write!(f, "the level at {at} is out of range"),
            ChunkFault::FirstRepetition => write!(f, "the first repetition level is not 0"),
            ChunkFault::FewValues => write!(f, "there are fewer values than needed"),
            ChunkFault::ValueLength(at) => write!(f, "the value at {at} has a wrong length"),
            ChunkFault::Closed => write!(f, "the chunk is closed"),
            ChunkFault::PageWaits => write!(f, "a due page waits to be cut"),
            ChunkFault::Pages => write!(f, "the chunk has all the pages that it may have"),
            ChunkFault::NoRecord => write!(f, "the chunk is open, or its opening was refused"),
            ChunkFault::Page(fault) => write!(f, "{fault}"),
        }
    }
}

impl Error for ChunkFault {}

impl From<PageFault> for ChunkFault {
    ghost from_gives = { λ f r. r ≡ Page f };

    fn from(fault: PageFault) -> ChunkFault {
        ChunkFault::Page(fault)
    }
}
