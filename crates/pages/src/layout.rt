ghost use Rattle.std.specs.Prelude.{◌≡◌};

use crate::list::ListForm;

// What a page's bytes depend on besides its levels and values.
// Version, maxima and width are plain numbers, since a call must refuse wrong ones.
#[derive(Debug, Clone, Copy, PartialEq, Eq)]
pub struct Layout {
    pub version: u8,
    pub max_rep_level: u8,
    pub max_def_level: u8,
    // bytes of a value, 0 where each has its own length before it
    pub width: usize,
}

impl Layout {
    // The form of the repetition levels.
    pub(crate) fn repetition(self) -> ListForm
        ensures { result ≡ record { version = self.version; max = self.max_rep_level } }
    {
        ListForm {
            version: self.version,
            max: self.max_rep_level,
        }
    }

    // The form of the definition levels.
    pub(crate) fn definition(self) -> ListForm
        ensures { result ≡ record { version = self.version; max = self.max_def_level } }
    {
        ListForm {
            version: self.version,
            max: self.max_def_level,
        }
    }
}
