ghost use Rattle.std.specs.Prelude.{◌≡◌, ◌≤◌, length};
ghost use Rattle.ledger.specs.Entries.{lower, upper};
ghost use Rattle.metrics.specs.Metrics.{kept};

use buffers::Buffer;
use kinds::Kind;

// A bound as an entry keeps it: its bytes, and whether they are the value cut.
#[derive(Clone, Copy, PartialEq, Eq, Debug)]
pub struct StoredBound {
    pub bytes: Buffer<128>,
    pub is_cut: bool,
}

impl StoredBound {
    ghost use Rattle.kinds.specs.Cuts.{whole};
    ghost use Rattle.entries.specs.Bounds.{said_bound};

    // The bound of a page's smallest value: cut where there is a cut length, and empty where there is no value.
    pub fn lower<K: Kind>(cut: Option<usize>, min: &Option<Buffer<128>>) -> StoredBound
        ensures { said_bound result ≡ lower K.Kind.meaning cut (kept min.now) }
    {
        match (min, cut) {
            (None, _) => StoredBound::whole(Buffer::new()),
            (Some(value), None) => StoredBound::whole(*value),
            (Some(value), Some(length)) => StoredBound::cut_below::<K>(value, length),
        }
    }

    // The bound of a page's largest value, likewise.
    pub fn upper<K: Kind>(cut: Option<usize>, max: &Option<Buffer<128>>) -> StoredBound
        ensures { said_bound result ≡ upper K.Kind.meaning cut (kept max.now) }
    {
        match (max, cut) {
            (None, _) => StoredBound::whole(Buffer::new()),
            (Some(value), None) => StoredBound::whole(*value),
            (Some(value), Some(length)) => StoredBound::cut_above::<K>(value, length),
        }
    }

    fn whole(bytes: Buffer<128>) -> StoredBound
        ensures { said_bound result ≡ whole bytes }
    {
        StoredBound {
            bytes,
            is_cut: false,
        }
    }

    // The kind's lower cut of a value.
    fn cut_below<K: Kind>(value: &Buffer<128>, length: usize) -> StoredBound
        ensures { said_bound result ≡ K.Kind.meaning.cuts.lower length value.now }
    {
        let (front, is_cut) = K::truncate_min_value(value.as_slice(), length);
        StoredBound {
            bytes: buffer_of(&value.as_slice()[..front]),
            is_cut,
        }
    }

    // The kind's upper cut of a value, which is made in its place.
    fn cut_above<K: Kind>(value: &Buffer<128>, length: usize) -> StoredBound
        ensures { said_bound result ≡ K.Kind.meaning.cuts.upper length value.now }
    {
        let value = value.as_slice();
        let mut room = [0; 128];
        let copy = &mut room[..value.len()];
        copy.copy_from_slice(value);
        let (front, is_cut) = K::truncate_max_value(copy, length);
        StoredBound {
            bytes: buffer_of(&copy[..front]),
            is_cut,
        }
    }
}

// A buffer of at most 128 bytes.
fn buffer_of(bytes: &[u8]) -> Buffer<128>
    requires { length bytes.now ≤ 128 }
    ensures { result ≡ bytes.now }
{
    let mut buffer = Buffer::new();
    // They fit.
    let _ = buffer.extend(bytes);
    buffer
}
