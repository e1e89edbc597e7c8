use body_coder::BodyCoder;
use level_coder::LevelCoder;

// What a list holds before a call.
const OLD: u8 = 9;

// Whether `out` begins with `front`, and holds old bytes behind it.
fn left(out: &[u8], front: &[u8]) -> bool {
    out.strip_prefix(front)
        .is_some_and(|rest| rest.iter().all(|x| *x == OLD))
}

// Whether a call on a list of old bytes gives `answer`, and leaves `front` and old bytes behind it.
fn gives<F: FnOnce(&mut [u8]) -> Option<usize>>(
    call: F,
    answer: Option<usize>,
    front: &[u8],
) -> bool
    requires { F.IsAlwaysCallable call }
{
    let mut out = [OLD; 16];
    call(&mut out) == answer && left(&out, front)
}

pub(crate) fn codes<C: LevelCoder>(levels: &[u8], b: u32, bytes: &[u8]) -> bool {
    gives(|out| C::code(levels, b, out), Some(bytes.len()), bytes)
}

// Whether the coder refuses to write to a list of old bytes, and leaves them alone.
pub(crate) fn refuses<C: LevelCoder>(levels: &[u8], b: u32, out: &mut [u8]) -> bool {
    C::code(levels, b, out).is_none() && left(out, &[])
}

// Whether `size` of the bytes give the levels.
pub(crate) fn reads<C: LevelCoder>(bytes: &[u8], size: usize, b: u32, levels: &[u8]) -> bool {
    gives(
        |out| C::read(bytes, levels.len(), b, out),
        Some(size),
        levels,
    )
}

pub(crate) fn reads_none<C: LevelCoder>(bytes: &[u8], n: usize, b: u32) -> bool {
    gives(|out| C::read(bytes, n, b, out), None, &[])
}

pub(crate) fn body_codes<B: BodyCoder>(k: usize, plain: &[u8], coded: &[u8]) -> bool {
    gives(|out| B::code(k, plain, out), Some(coded.len()), coded)
}

pub(crate) fn body_reads<B: BodyCoder>(k: usize, coded: &[u8], plain: &[u8]) -> bool {
    gives(|out| B::read(k, coded, out), Some(plain.len()), plain)
}

pub(crate) fn body_refuses<B: BodyCoder>(k: usize, bytes: &[u8]) -> bool {
    gives(|out| B::code(k, bytes, out), None, &[]) && gives(|out| B::read(k, bytes, out), None, &[])
}
