ghost use Rattle.std.specs.Prelude.{◌≡◌, ◌+◌};
ghost use Rattle.areas.specs.Areas.{part};

// Where a page lies in its area.
#[derive(Clone, Copy, PartialEq, Eq, Debug)]
pub struct Place {
    pub offset: u32,
    pub len: u32,
}

// `as usize`, since no `From` takes a `u32` to a `usize`.
impl Place {
    // Where it ends.
    pub fn end(self) -> usize
        ensures { result ≡ self.offset + self.len }
    {
        self.offset as usize + self.len as usize
    }

    // The bytes of an area that lie there.
    pub fn bytes_in<'a>(self, area: &'a [u8]) -> &'a [u8]
        ensures { result.now ≡ part area.now self }
    {
        let behind = &area[area.len().min(self.offset as usize)..];
        &behind[..behind.len().min(self.len as usize)]
    }
}
