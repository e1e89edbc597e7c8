use std::fmt;

// Whether a vat may be released, and why not.
#[derive(Clone, Copy, PartialEq, Eq, Debug)]
pub enum Decision {
    Released,
    NoReading,
    ProbeFailed,
    BelowLimit,
}

impl fmt::Display for Decision {
    fn fmt<W: fmt::Write>(&self, f: &mut fmt::Formatter<W>) -> fmt::Result {
        f.write_str(match self {
            Decision::Released => "yes",
            Decision::NoReading => "no: no reading",
            Decision::ProbeFailed => "no: every reading failed",
            Decision::BelowLimit => "no: below the limit",
        })
    }
}
