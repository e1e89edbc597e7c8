ghost use Rattle.std.specs.Prelude.{◌≡◌, ◌^◌, ◌<◌, length};
ghost use Rattle.std.specs.List.{slice_get};
ghost use Rattle.std.specs.Option.{option_map};
ghost use Rattle.sinks.specs.Stores.{StoreMeaning, Copied};

// The reading half: questions that change nothing. Pages are counted from 0, and one
// beyond the last is absent.
pub trait PageStore {
    ghost meaning: { StoreMeaning Self };

    fn count(&self) -> usize
        ensures exact { result ≡ length (meaning.pages self.now) }
        ensures few { result < 2 ^ 63 };

    fn offset(&self, k: usize) -> Option<usize>
        ensures { result ≡ slice_get (meaning.offsets self.now) k };

    fn len(&self, k: usize) -> Option<usize>
        ensures { result ≡ option_map length (slice_get (meaning.pages self.now) k) };

    // Copies page k to the front of `out` and answers its length; absent too where `out`
    // is too short, which is then left alone.
    fn copy(&self, k: usize, out: &mut [u8]) -> Option<usize>
        ensures { Copied (slice_get (meaning.pages self.now) k) out.old out.new result };
}
