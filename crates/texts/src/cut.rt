ghost use Rattle.std.specs.Prelude.{◌<◌, length as long, take};
ghost use Rattle.kinds.specs.Cuts.{CutBelow, CutAbove};
ghost use Rattle.texts.specs.Unicode.{Text};
ghost use Rattle.texts.specs.Cut.{front, lower, upper};
ghost use Rattle.texts.specs.Steps.{FrontOf, LastLead, RaisedAt};

use crate::increment::{increment_utf8, last_raised};
use crate::leads::is_lead;
use crate::valid::as_text;

// The lower bound of a string at the length: how long a front of it, and whether that cuts it. A pair, as every kind's cuts answer.
#[tactic(auto, using(crate::proofs::Cuts::min_bound))]
pub fn truncate_min_value(value: &[u8], length: usize) -> (usize, bool)
    ensures bound { CutBelow (lower length value.now) value.now result }
    ensures text { Text value.now → Text (take result.0 value.now) }
{
    if value.len() <= length {
        return (value.len(), false);
    }
    let Some(text) = as_text(value) else {
        return strings::truncate_min_value(value, length);
    };
    last_boundary(text, length).map_or((value.len(), false), |split| (split, true))
}

// Puts the upper bound of a string at the length in its place: its length, and whether the string was cut.
pub fn truncate_max_value(value: &mut [u8], length: usize) -> (usize, bool)
    ensures bound { CutAbove (upper length value.old) value.old value.new result }
    ensures text { Text value.old → Text (take result.0 value.new) }
{
    if value.len() <= length {
        return (value.len(), false);
    }
    let Some(text) = as_text(value) else {
        return strings::truncate_max_value(value, length);
    };
    let Some((at, next)) = truncate_and_increment_utf8(text, length) else {
        return (value.len(), false);
    };
    (increment_utf8(value, at, next), true)
}

// In the longest front that ends on a character boundary, the place of the last character that can be raised, and its
// successor.
fn truncate_and_increment_utf8(text: &str, length: usize) -> Option<(usize, char)>
    requires { length < long text.now }
    ensures { RaisedAt (take (front length text.now) text.now) result }
{
    let split = last_boundary(text, length)?;
    last_raised(&text[..split])
}

// The last character boundary from 1 up to the length.
#[tactic(auto, using(crate::proofs::Boundaries::boundary_front))]
fn last_boundary(text: &str, length: usize) -> Option<usize>
    requires { length < long text.now }
    ensures { FrontOf length text.now result }
{
    last_lead(&text.as_bytes()[1..=length]).map(|at| at + 1)
}

// The place of the last byte with which a character begins.
fn last_lead(bytes: &[u8]) -> Option<usize>
    ensures { LastLead bytes.now result }
{
    bytes.iter().rposition(|byte| is_lead(*byte))
}
