ghost use Rattle.std.specs.Prelude.{◌≡◌, ℕ, ◌≤◌, List, length};
ghost use Rattle.std.specs.Int.{w32, w64};
ghost use Rattle.std.proofs.Common.{of_z, to_z, refl, lit≤};
ghost use Rattle.kinds.specs.Plain.{four};
ghost use Rattle.words.specs.Words.{word, first, two, eight};

use crate::room::lend;

// A type of numbers as the format lays them down: in little-endian bytes. The language has the two conversions
// for each type by itself, so each type has an impl.
pub trait Word: Copy {
    // How many bytes a number has: at most eight, as there is room.
    ghost WIDTH: { ℕ };

    const WIDTH: usize;

    // A number fits in the room.
    ghost few: { WIDTH ≤ 8 };

    // The bytes of a number.
    ghost bytes: { Self → List ℕ };

    // The number of a value's first bytes.
    ghost of_bytes: { List ℕ → Self };

    // Reads the number of a value's first bytes; one that is missing is 0.
    fn read(value: &[u8]) -> Self
        ensures { result ≡ of_bytes value.now };

    // The number's bytes, in lent room.
    fn lend(self, room: &mut [u8; 8]) -> &[u8]
        ensures { result.now ≡ bytes self };

    // A number has as many bytes as its type says.
    ghost width_law: { (x : Self) → length (bytes x) ≡ WIDTH };
}

// A value's first bytes; one that is missing is 0.
#[tactic(auto, using(crate::proofs::Firsts::is_first))]
fn first<const N: usize>(value: &[u8]) -> [u8; N]
    ensures { result ≡ first N value.now }
{
    let mut bytes = [0; N];
    let n = value.len().min(N);
    bytes[..n].copy_from_slice(&value[..n]);
    bytes
}

impl Word for u16 {
    ghost WIDTH = { 2 };

    const WIDTH: usize = 2;

    ghost few = { lit≤ tt };

    ghost bytes = { two };

    ghost of_bytes = { word 2 };

    fn read(value: &[u8]) -> u16 {
        u16::from_le_bytes(first(value))
    }

    fn lend(self, room: &mut [u8; 8]) -> &[u8] {
        lend(&u16::to_le_bytes(self), room)
    }

    ghost width_law = { λ _. refl };
}

impl Word for u32 {
    ghost WIDTH = { 4 };

    const WIDTH: usize = 4;

    ghost few = { lit≤ tt };

    ghost bytes = { four };

    ghost of_bytes = { word 4 };

    fn read(value: &[u8]) -> u32 {
        u32::from_le_bytes(first(value))
    }

    fn lend(self, room: &mut [u8; 8]) -> &[u8] {
        lend(&u32::to_le_bytes(self), room)
    }

    ghost width_law = { λ _. refl };
}

impl Word for u64 {
    ghost WIDTH = { 8 };

    const WIDTH: usize = 8;

    ghost few = { lit≤ tt };

    ghost bytes = { eight };

    ghost of_bytes = { word 8 };

    fn read(value: &[u8]) -> u64 {
        u64::from_le_bytes(first(value))
    }

    fn lend(self, room: &mut [u8; 8]) -> &[u8] {
        lend(&u64::to_le_bytes(self), room)
    }

    ghost width_law = { λ _. refl };
}

impl Word for i32 {
    ghost WIDTH = { 4 };

    const WIDTH: usize = 4;

    ghost few = { lit≤ tt };

    ghost bytes = { λ x. four (of_z w32 x) };

    ghost of_bytes = { λ v. to_z w32 (word 4 v) };

    fn read(value: &[u8]) -> i32 {
        i32::from_le_bytes(first(value))
    }

    fn lend(self, room: &mut [u8; 8]) -> &[u8] {
        lend(&i32::to_le_bytes(self), room)
    }

    ghost width_law = { λ _. refl };
}

impl Word for i64 {
    ghost WIDTH = { 8 };

    const WIDTH: usize = 8;

    ghost few = { lit≤ tt };

    ghost bytes = { λ x. eight (of_z w64 x) };

    ghost of_bytes = { λ v. to_z w64 (word 8 v) };

    fn read(value: &[u8]) -> i64 {
        i64::from_le_bytes(first(value))
    }

    fn lend(self, room: &mut [u8; 8]) -> &[u8] {
        lend(&i64::to_le_bytes(self), room)
    }

    ghost width_law = { λ _. refl };
}
