ghost use Rattle.std.specs.Prelude.{◌≡◌};
ghost use Rattle.kinds.specs.Plain.{PlainSize, Laid, Reads, ReadsBack, plain, four, seen};

// How many plain bytes a value has in a column of the width, absent if its length is not one of the width's.
pub fn plain_size(width: usize, value: &[u8]) -> Option<usize>
    ensures { PlainSize width value.now result }
{
    match width {
        0 => (value.len() <= 128).then_some(4 + value.len()),
        _ => (value.len() == width).then_some(width),
    }
}

// Writes a value's plain bytes to the front of `out` and answers how many these are, absent if they do not fit.
pub fn put_plain(width: usize, value: &[u8], out: &mut [u8]) -> Option<usize>
    ensures { Laid (plain width value.now) out.old out.new result }
{
    let prefix = four_bytes(value.len());
    let front = &prefix[..if width > 0 { 0 } else { 4 }];
    let size = front.len() + value.len();
    // A test and slices, since behind a `get_mut` the proof knows no byte of `out`.
    if out.len() < size {
        return None;
    }
    let (head, rest) = out.split_at_mut(front.len());
    head.copy_from_slice(front);
    rest[..value.len()].copy_from_slice(value);
    Some(size)
}

// A length as the format writes it before a BYTE_ARRAY, and before a list of levels.
pub fn four_bytes(n: usize) -> [u8; 4]
    ensures { result ≡ four n }
{
    let [a, b, c, d, ..] = n.to_le_bytes();
    [a, b, c, d]
}

// Reads one value off the front of `bytes`: the value and the number of its plain bytes, absent if none stands there.
pub fn read_plain(width: usize, bytes: &[u8]) -> Option<(&[u8], usize)>
    ensures reads { Reads width bytes.now (seen result) }
    ensures back { ReadsBack width bytes.now (seen result) }
{
    if width > 0 {
        return Some((bytes.get(..width)?, width));
    }
    // By a pattern, which names the four bytes.
    let [a, b, c, d, rest @ ..] = bytes else {
        return None;
    };
    // By `as`, since no `From` takes a `u32` to a `usize`.
    let length = u32::from_le_bytes([*a, *b, *c, *d]) as usize;
    if length > 128 {
        return None;
    }
    Some((rest.get(..length)?, 4 + length))
}
