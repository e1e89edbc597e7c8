ghost use Rattle.std.specs.Prelude.{◌≡◌, ◌≤◌, [], length};
ghost use Rattle.std.specs.List.{slice_get};
ghost use Rattle.entries.specs.Tables.{Pushed};

use crate::entry::Entry;
use std::marker::Model;

// A list of at most 64 entries, in fixed memory, since nothing is allocated. The memory behind them holds blank
// entries, so that two tables of the same entries are equal.
#[derive(Clone, Copy, PartialEq, Eq, Debug)]
pub struct EntryTable {
    entries: [Entry; 64],
    used: usize,
}

// What stands where there is no entry.
const BLANK: Entry = Entry {
    offset: 0,
    size: 0,
    levels: 0,
    first_row: 0,
    marks: None,
};

impl Model for EntryTable {
    ghost use Rattle.std.specs.Prelude.{ℕ, List, length, take};
    ghost use Rattle.entries.specs.declared.entry.Entry.{Entry as PageEntry};
    ghost use Rattle.entries.specs.Tables.{IsPadded, padded, padded-take, length-front};

    ghost Value = { List PageEntry };

    ghost view = { λ t. take t.used t.entries };

    ghost invariant = { λ t. IsPadded t.used t.entries };

    ghost inverse = { λ es. record { entries = padded es; used = length es } };

    ghost inverse_ok = { λ t p i. record { entries = padded-take t.used t.entries p i; used = length-front t.used t.entries p i } };
}

impl EntryTable {
    pub fn new() -> EntryTable
        ensures { result ≡ [] }
    {
        EntryTable {
            entries: [BLANK; 64],
            used: 0,
        }
    }

    pub fn len(&self) -> usize
        ensures value { result ≡ length self.now }
        ensures within { result ≤ 64 }
    {
        self.as_slice().len()
    }

    // The entry at a place, absent behind the last.
    pub fn get(&self, k: usize) -> Option<Entry>
        ensures { result ≡ slice_get self.now k }
    {
        self.as_slice().get(k).copied()
    }

    // Puts an entry behind the others, or answers `None`, and puts none, where there are 64.
    pub fn push(&mut self, entry: Entry) -> Option<()>
        ensures { Pushed self.old entry self.new result }
    {
        if self.used == 64 {
            return None;
        }
        self.entries[self.used] = entry;
        self.used += 1;
        Some(())
    }

    fn as_slice(&self) -> &[Entry]
        ensures entries { result.now ≡ self.now }
        ensures fits { length self.now ≤ 64 }
    {
        &self.entries[..self.used]
    }
}
