use refusals::ChunkFault;
use std::error::Error;
use std::fmt;

// Why a chunk was not rebuilt.
#[derive(Clone, Copy, Drop, PartialEq, Eq, Debug)]
pub enum Unbuilt {
    // a list of calls has more or fewer places than one for each reading and one for the close
    Places,
    // the first refusal that a call met, those of the first list before those of the second
    Refused(ChunkFault),
}

impl fmt::Display for Unbuilt {
    fn fmt<W: fmt::Write>(&self, f: &mut fmt::Formatter<W>) -> fmt::Result {
        match self {
            Unbuilt::Places => write!(
                f,
                "a list of calls has not one place for each reading and one for the close"
            ),
            Unbuilt::Refused(fault) => write!(f, "{fault}"),
        }
    }
}

impl Error for Unbuilt {}
