ghost use Rattle.std.specs.Prelude.{◌≡◌};
ghost use Rattle.release.specs.Rows.{is_time, below, CellSplit, HoldRead};

use floats::{Bits, DoubleBits};
use std::error::Error;
use std::fmt;
use std::num::f64_to_bits_with_nan;

// A row of the day's log. A missing reading has no hold temperature, and a failed probe measures NaN.
#[derive(Clone, Copy, Drop, PartialEq, Eq, Debug)]
pub struct Row<'a> {
    pub vat: &'a str,
    pub hold: Option<DoubleBits>,
}

// What is wrong with a row.
#[derive(Clone, Copy, Drop, PartialEq, Eq, Debug)]
pub enum BadRow {
    Cells,
    Time,
    Vat,
    Hold,
}

impl fmt::Display for BadRow {
    fn fmt<W: fmt::Write>(&self, f: &mut fmt::Formatter<W>) -> fmt::Result {
        f.write_str(match self {
            BadRow::Cells => "expected three cells: time,vat,hold temperature",
            BadRow::Time => "expected a time such as 06:15:30 in the first cell",
            BadRow::Vat => "expected a vat's name in the second cell",
            BadRow::Hold => {
                "expected degrees Celsius such as 72.4, 'nan' or nothing in the third cell"
            }
        })
    }
}

impl Error for BadRow {}

impl<'a> TryFrom<&'a str> for Row<'a> {
    ghost use Rattle.release.specs.Rows.{RowRead};

    type Error = BadRow;

    ghost try_from_gives = { λ line r. RowRead line.now r };

    // Reads a line of the log.
    fn try_from(line: &'a str) -> Result<Row<'a>, BadRow> {
        let (time, rest) = split_cell(line)?;
        let (vat, hold) = split_cell(rest)?;
        if split_cell(hold).is_ok() {
            return Err(BadRow::Cells);
        }
        if !is_time(time.as_bytes()) {
            return Err(BadRow::Time);
        }
        if vat.is_empty() {
            return Err(BadRow::Vat);
        }
        Ok(Row {
            vat,
            hold: read_hold(hold)?,
        })
    }
}

// The first cell, and what stands behind its comma.
fn split_cell(text: &str) -> Result<(&str, &str), BadRow>
    ensures { CellSplit text.now result }
{
    text.split_once(',').ok_or(BadRow::Cells)
}

fn read_hold(cell: &str) -> Result<Option<DoubleBits>, BadRow>
    ensures { HoldRead cell.now result }
{
    if cell.is_empty() {
        return Ok(None);
    }
    let degrees = cell.parse::<f64>().map_err(|_| BadRow::Hold)?;
    if degrees.is_finite() || cell == "nan" {
        Ok(Some(Bits(f64_to_bits_with_nan(degrees))))
    } else {
        Err(BadRow::Hold)
    }
}

// Hours, minutes and seconds in two digits each.
fn is_time(text: &[u8]) -> bool
    ensures { result ≡ is_time text.now }
{
    match text {
        [h, hh, b':', m, mm, b':', s, ss] => {
            is_below(*h, *hh, 24) && is_below(*m, *mm, 60) && is_below(*s, *ss, 60)
        }
        _ => false,
    }
}

fn is_below(tens: u8, ones: u8, limit: u8) -> bool
    ensures { result ≡ below limit tens ones }
{
    tens.is_ascii_digit() && ones.is_ascii_digit() && (tens - b'0') * 10 + (ones - b'0') < limit
}
