ghost use Rattle.std.specs.Prelude.{◌≡◌, take};

// The bytes in lent room, for a value that has none of its own to lend: of more than eight, the first eight.
pub fn lend<'a>(bytes: &[u8], room: &'a mut [u8; 8]) -> &'a [u8]
    ensures { result.now ≡ take 8 bytes.now }
{
    let n = bytes.len().min(8);
    room[..n].copy_from_slice(&bytes[..n]);
    &room[..n]
}
