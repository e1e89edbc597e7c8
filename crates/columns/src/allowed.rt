ghost use Rattle.std.specs.Prelude.{◌≡◌, ◌&&◌};
ghost use Rattle.columns.specs.Columns.{within, column_fits, coders_fit, settings_fit, checked, level_of, width_of, layout_of, CheckNumbered};

use crate::column::Column;
use crate::settings::Settings;
use body_coder::BodyCoder;
use kinds::{Kind, admits_width};
use level_coder::LevelCoder;
use pages::Layout;
use refusals::ChunkFault;

// Whether a column and settings are allowed. They are two arguments, since one column may be written in many ways.
#[tactic(auto, using(crate::proofs::Checking::check_numbered))]
pub fn check<K: Kind, L: LevelCoder, B: BodyCoder>(
    column: Column,
    settings: Settings,
) -> Result<(), ChunkFault>
    ensures answer { result ≡ checked K.Kind.meaning L.LevelCoder.coding B.BodyCoder.body column settings }
    ensures numbers { CheckNumbered }
{
    if !column.is_allowed::<K>() {
        return Err(ChunkFault::Column);
    }
    if !settings.is_allowed::<L, B>(column) {
        return Err(ChunkFault::Settings);
    }
    Ok(())
}

impl Column {
    // Whether a chunk may hold it.
    fn is_allowed<K: Kind>(self) -> bool
        ensures { result ≡ column_fits K.Kind.meaning self }
    {
        0 <= self.max_rep_level
            && self.max_rep_level <= self.max_def_level
            && self.max_def_level <= 15
            && admits_width::<K>(self.width)
    }
}

impl Settings {
    // Whether a column may be written so with these coders.
    fn is_allowed<L: LevelCoder, B: BodyCoder>(self, column: Column) -> bool
        ensures { result ≡ settings_fit L.LevelCoder.coding B.BodyCoder.body column self }
    {
        self.is_within_limits()
            && self
                .cut_length
                .is_none_or(|length| (1..=64).contains(&length))
            && self.admits::<L, B>(column.width)
    }

    // Whether the version, the rows and the bytes are numbers that the rules allow.
    fn is_within_limits(self) -> bool
        ensures { result ≡ (within 1 2 self.version && (within 1 512 self.row_limit && within 1 4096 self.size_limit)) }
    {
        (1..=2).contains(&self.version)
            && (1..=512).contains(&self.row_limit)
            && (1..=4096).contains(&self.size_limit)
    }

    // Whether the coders go with the version and the width.
    fn admits<L: LevelCoder, B: BodyCoder>(self, width: usize) -> bool
        ensures { result ≡ coders_fit L.LevelCoder.coding B.BodyCoder.body width self.version }
    {
        (self.version == 1 || L::in_version_2()) && (width != 0 || B::admits_byte_array())
    }
}

// A maximum level as a byte. A layout is made of any column, so that 0 stands for a level that none may have.
fn level_byte(level: i16) -> u8
    ensures { result ≡ level_of level }
{
    u8::try_from(level)
        .ok()
        .filter(|level| *level <= 15)
        .unwrap_or(0)
}

// A width, and in the same way 0 for one that no column may have.
fn width_bytes(width: usize) -> usize
    ensures { result ≡ width_of width }
{
    if width <= 128 { width } else { 0 }
}

// What a page's bytes depend on besides its levels and values.
// Column and settings are two arguments, as in `check`.
pub fn layout(column: Column, settings: Settings) -> Layout
    ensures { result ≡ layout_of column settings }
{
    Layout {
        version: settings.version,
        max_rep_level: level_byte(column.max_rep_level),
        max_def_level: level_byte(column.max_def_level),
        width: width_bytes(column.width),
    }
}
