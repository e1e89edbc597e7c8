ghost use Rattle.std.specs.Prelude.{◌≡◌, Some};
ghost use Rattle.pages.specs.Refusals.{said_page, message_page};
ghost use Rattle.pages.specs.declared.fault.PageFault.TheVariants.{Sink};

use sinks::{Fault, Layer, Said, SinkFault};
use std::error::Error;
use std::fmt;

// Why the page layer refuses. What the sink refused is held whole.
#[derive(Clone, Copy, PartialEq, Eq, Debug)]
pub enum PageFault {
    // the scratch is too short
    Scratch,
    // a batch has more plain bytes than a page takes at once
    PlainBytes,
    // a list to read into is too short
    ReadLists,
    // the open page would have too many levels
    Levels,
    // there is no page of that number
    NoPage,
    Sink(SinkFault),
}

impl Fault for PageFault {
    ghost meaning = { said_page };

    fn said(self) -> Said {
        let number = match self {
            PageFault::Scratch => 3,
            PageFault::PlainBytes => 11,
            PageFault::ReadLists => 13,
            PageFault::Levels => 23,
            PageFault::NoPage => 27,
            PageFault::Sink(fault) => return fault.said(),
        };
        Said {
            number,
            layer: Layer::Page,
            position: 0,
        }
    }
}

impl fmt::Display for PageFault {
    ghost output = { λ e. Some (message_page e) };

    fn fmt<W: fmt::Write>(&self, f: &mut fmt::Formatter<W>) -> fmt::Result {
        match self {
            PageFault::Scratch => write!(f, "the scratch is too short"),
            PageFault::PlainBytes => write!(f, "the batch has more plain bytes than a page takes"),
            PageFault::ReadLists => write!(f, "a list to read into is too short"),
            PageFault::Levels => write!(f, "the open page would have too many levels"),
            PageFault::NoPage => write!(f, "there is no page of that number"),
            PageFault::Sink(fault) => write!(f, "{fault}"),
        }
    }
}

impl Error for PageFault {}

impl From<SinkFault> for PageFault {
    ghost from_gives = { λ f r. r ≡ Sink f };

    fn from(fault: SinkFault) -> PageFault {
        PageFault::Sink(fault)
    }
}
