ghost use Rattle.std.specs.Prelude.{◌≡◌, ◌^◌, ◌<◌, ◌&&◌, ◌==◌, nat_eq, length, drop, count_by, MatchOption, if◌then◌else◌};
ghost use Rattle.pages.specs.Layout.{level_part, level_size_of, LevelSize};
ghost use Rattle.pages.specs.Pages.{ListFits, Measured};
ghost use Rattle.pages.specs.Reading.{list_count, ListAt, NoListAt};
ghost use Rattle.pages.specs.Widths.{bit_length};

use counting::{are_below, count_of};
use kinds::four_bytes;
use level_coder::{LevelCoder, bit_width};

// What a level list's bytes depend on besides its levels.
// Version and maximum are plain numbers, as they are in a layout.
#[derive(Clone, Copy)]
pub(crate) struct ListForm {
    pub(crate) version: u8,
    pub(crate) max: u8,
}

impl ListForm {
    // The bit width of levels up to the maximum.
    #[tactic(auto, using(crate::proofs::Bits::one_length))]
    fn width(self) -> u32
        ensures { result ≡ bit_length self.max }
    {
        bit_width(self.max)
    }

    // Whether the list has its length before it.
    fn has_length<L: LevelCoder>(self) -> bool
        ensures { result ≡ (self.version == 1 && L.LevelCoder.coding.framed) }
    {
        self.version == 1 && L::is_framed()
    }

    // How many levels the list of a page of `n` has.
    pub(crate) fn count(self, n: usize) -> usize
        ensures { result ≡ list_count self.max n }
    {
        if self.max == 0 { 0 } else { n }
    }

    // How many of a page's `n` levels have a value, by the list's levels: those of the maximum, and all where that is 0.
    pub(crate) fn value_count(self, n: usize, levels: &[u8]) -> usize
        ensures { result ≡ (if self.max == 0 then n else count_by (nat_eq self.max) levels.now) }
    {
        if self.max == 0 {
            return n;
        }
        count_of(self.max, levels)
    }

    // How many bytes `n` levels take.
    pub(crate) fn size<L: LevelCoder>(self, n: usize) -> Option<usize>
        ensures { LevelSize L.LevelCoder.coding self.version self.max n result }
    {
        if n > 1024 || self.max > 15 {
            return None;
        }
        if self.max == 0 {
            return Some(0);
        }
        let coded = L::size(n, self.width())?;
        Some(if self.has_length::<L>() {
            4 + coded
        } else {
            coded
        })
    }

    // How many bytes the levels take, absent if they cannot stand in the list.
    pub(crate) fn measure<L: LevelCoder>(self, levels: &[u8]) -> Option<usize>
        ensures { Measured L.LevelCoder.coding self.version self.max levels.now result }
    {
        let size = self.size::<L>(levels.len())?;
        are_below(1 << self.width(), levels).then_some(size)
    }

    // Writes levels over bytes that are as many as theirs.
    pub(crate) fn write<L: LevelCoder>(self, levels: &[u8], out: &mut [u8])
        requires fits { ListFits self.max levels.now }
        requires room { length out.old ≡ level_size_of L.LevelCoder.coding self.version self.max (length levels.now) }
        ensures { out.new ≡ level_part L.LevelCoder.coding self.version self.max levels.now }
    {
        if self.max == 0 {
            return;
        }
        // The call stands twice, since of a list that one of two branches lends a proof loses what it then holds.
        if self.has_length::<L>() {
            let (length, coded) = out.split_at_mut(4);
            length.copy_from_slice(&four_bytes(coded.len()));
            L::code(levels, self.width(), coded).unwrap();
        } else {
            L::code(levels, self.width(), out).unwrap();
        }
    }

    // Reads the list of a page of `n` levels off the front of bytes, and answers what is behind it.
    pub(crate) fn read<'b, L: LevelCoder>(
        self,
        n: usize,
        bytes: &'b [u8],
        levels: &mut [u8],
    ) -> Option<&'b [u8]>
        requires { length levels.old ≡ list_count self.max n }
        ensures { MatchOption result
            (NoListAt L.LevelCoder.coding self.version self.max n bytes.now)
            (λ rest. ListAt L.LevelCoder.coding self.version self.max n bytes.now levels.new
            × (rest.now ≡ drop (level_size_of L.LevelCoder.coding self.version self.max n) bytes.now)) }
    {
        if self.max == 0 {
            return Some(bytes);
        }
        if self.max > 15 {
            return None;
        }
        let coded = if self.has_length::<L>() {
            let size = L::size(n, self.width())?;
            bytes.strip_prefix(&four_bytes(size))?
        } else {
            bytes
        };
        let size = L::read(coded, n, self.width(), levels)?;
        Some(&coded[size..])
    }
}
