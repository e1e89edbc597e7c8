ghost use Rattle.std.specs.Prelude.{◌≡◌, ℕ, List};

// A type whose values can stand in a column of the kind, by the bytes of each.
pub trait ValueOf<K> {
    ghost bytes: { Self → List ℕ };

    // The value's bytes. `room` is for those of a number, which has no bytes to lend.
    fn as_bytes<'a>(&'a self, room: &'a mut [u8; 8]) -> &'a [u8]
        ensures { result.now ≡ bytes self.now };
}
