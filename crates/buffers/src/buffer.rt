ghost use Rattle.std.specs.Prelude.{◌≡◌, ◌*◌, ◌^◌, ◌<◌, ◌≤◌, [], length, map, replicate, Decides, IfSome, SomeIff};
ghost use Rattle.std.specs.List.{concat};
ghost use Rattle.buffers.specs.Buffers.{Appended, AppendedAll, HaveLength};

use kinds::ValueOf;
use std::marker::Model;

// A list of at most N bytes, in fixed memory, since nothing is allocated. The memory behind them holds zeros, so that
// two buffers of the same bytes are equal.
#[derive(Clone, Copy, PartialEq, Eq, Debug)]
pub struct Buffer<const N: usize> {
    bytes: [u8; N],
    used: usize,
}

impl<const N: usize> Model for Buffer<N> {
    ghost use Rattle.std.specs.Prelude.{ℕ, List, length, take};
    ghost use Rattle.buffers.specs.Buffers.{IsPadded, padded, padded-take, length-front};

    ghost Value = { List ℕ };

    ghost view = { λ b. take b.used b.bytes };

    ghost invariant = { λ b. IsPadded N b.used b.bytes };

    ghost inverse = { λ bs. record { bytes = padded N bs; used = length bs } };

    ghost inverse_ok = { λ b p i. record { bytes = padded-take N b.used b.bytes p i; used = length-front N b.used b.bytes p i } };
}

impl<const N: usize> Buffer<N> {
    pub fn new() -> Buffer<N>
        ensures { result ≡ [] }
    {
        Buffer {
            bytes: [0; N],
            used: 0,
        }
    }

    pub fn clear(&mut self)
        ensures { self.new ≡ [] }
    {
        // Only what is used, since zeros stand behind it.
        let all = &mut self.bytes[..];
        put_zeros(&mut all[0..self.used]);
        self.used = 0;
    }

    pub fn as_slice(&self) -> &[u8]
        ensures bytes { result.now ≡ self.now }
        ensures fits { length self.now ≤ N }
    {
        &self.bytes[..self.used]
    }

    // Appends the bytes, or answers `None`, and appends none, where there is no room for all.
    pub fn extend(&mut self, bytes: &[u8]) -> Option<()>
        ensures { Appended N self.old bytes.now self.new result }
    {
        let used = self.used;
        if N - used < bytes.len() {
            return None;
        }
        let end = used + bytes.len();
        // A slice of it all first, since the check lends no part of an array whose length is a parameter.
        let all = &mut self.bytes[..];
        all[used..end].copy_from_slice(bytes);
        // A number computed before, which the compiler need not read again behind the copy.
        self.used = end;
        Some(())
    }

    // Appends the bytes of values that have equally many, or answers `None`, and appends none, where they have not or
    // where there is no room for all.
    pub fn extend_all<K, V: ValueOf<K>>(&mut self, values: &[V]) -> Option<()>
        ensures { AppendedAll N self.old (map V.ValueOf.bytes values.now) self.new result }
    {
        let Some(first) = values.first() else {
            return self.extend(&[]);
        };
        let width = first.as_bytes(&mut [0; 8]).len();
        if !have_length::<K, V>(values, width) {
            return None;
        }
        self.extend_even::<K, V>(values, width)
    }

    // The same for values that have so many bytes each.
    fn extend_even<K, V: ValueOf<K>>(&mut self, values: &[V], width: usize) -> Option<()>
        requires { HaveLength width (map V.ValueOf.bytes values.now) }
        ensures { Appended N self.old (concat (map V.ValueOf.bytes values.now)) self.new result }
    {
        let used = self.used;
        let size = size_together::<K, V>(values, width)?;
        if N - used < size {
            return None;
        }
        // As in `extend`: the end is computed before, and a slice of it all comes first.
        let end = used + size;
        let all = &mut self.bytes[..];
        lay::<K, V>(values, width, &mut all[used..end]);
        self.used = end;
        Some(())
    }
}

// Zeros at each place. By itself, since behind a `fill` the search for a proof of more stops at a limit.
fn put_zeros(bytes: &mut [u8])
    ensures { bytes.new ≡ replicate (length bytes.old) 0 }
{
    bytes.fill(0);
}

// Whether each value has so many bytes, which the compiler knows of a type whose values all have.
fn have_length<K, V: ValueOf<K>>(values: &[V], width: usize) -> bool
    ensures { Decides result (HaveLength width (map V.ValueOf.bytes values.now)) }
{
    values
        .iter()
        .all(|value| value.as_bytes(&mut [0; 8]).len() == width)
}

// How many bytes values of so many bytes each have together, absent if that is more than a number holds.
fn size_together<K, V: ValueOf<K>>(values: &[V], width: usize) -> Option<usize>
    requires { HaveLength width (map V.ValueOf.bytes values.now) }
    ensures size { SomeIff result (length (concat (map V.ValueOf.bytes values.now)) < 2 ^ 64) (length (concat (map V.ValueOf.bytes values.now))) }
    ensures each { IfSome result (λ size. size ≡ length values.now * width) }
{
    values.len().checked_mul(width)
}

// Lays down values of so many bytes each, one after the other. The loop does nothing else and ends nowhere else, so that
// the compiler makes one copy of it where it knows the width.
fn lay<K, V: ValueOf<K>>(values: &[V], width: usize, out: &mut [u8])
    requires even { HaveLength width (map V.ValueOf.bytes values.now) }
    requires room { length out.old ≡ length values.now * width }
    ensures { out.new ≡ concat (map V.ValueOf.bytes values.now) }
{
    let mut at = 0;
    for value in values {
        let mut room = [0; 8];
        let bytes = value.as_bytes(&mut room);
        out[at..at + width].copy_from_slice(bytes);
        at += width;
    }
}

// A value that is kept, whatever its kind.
impl<K> ValueOf<K> for Buffer<128> {
    ghost bytes = { λ b. b };

    fn as_bytes<'a>(&'a self, _room: &'a mut [u8; 8]) -> &'a [u8] {
        self.as_slice()
    }
}
