ghost use Rattle.std.specs.Prelude.{Some};
ghost use Rattle.sinks.specs.Refusals.{said, message};

use crate::said::{Fault, Said};
use std::error::Error;
use std::fmt;

// Who refuses. A refusal is passed up unchanged, so it keeps the layer that it began in.
#[derive(Clone, Copy, PartialEq, Eq, Debug)]
pub enum Layer {
    Sink,
    Page,
    Chunk,
}

// Why a sink refuses: its area, or the length of a page that it does not take.
#[derive(Clone, Copy, PartialEq, Eq, Debug)]
pub enum SinkFault {
    Area,
    Full(usize),
}

impl Fault for SinkFault {
    ghost meaning = { said };

    fn said(self) -> Said {
        let number = match self {
            SinkFault::Area => 12,
            SinkFault::Full(_) => 25,
        };
        Said {
            number,
            layer: Layer::Sink,
            position: 0,
        }
    }
}

impl fmt::Display for SinkFault {
    ghost output = { λ e. Some (message e) };

    fn fmt<W: fmt::Write>(&self, f: &mut fmt::Formatter<W>) -> fmt::Result {
        match self {
            SinkFault::Area => write!(f, "the area has a size that the sink does not use"),
            SinkFault::Full(len) => write!(f, "the sink does not take a page of {len} bytes"),
        }
    }
}

impl Error for SinkFault {}
