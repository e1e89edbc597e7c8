ghost use Rattle.std.specs.Prelude.{◌≡◌, ℕ, ◌*◌, ◌≤◌, length, Decides};
ghost use Rattle.bits.specs.Rows.{Fit, packed};
ghost use Rattle.bits.specs.Packing.{Room, Written, Packs, Unpacks, Repacked};

use crate::order::BitOrder;
use counting::are_below;

// Writes numbers of `q` bits into all of `out`, from the bits of numbers of `p` bits and 0 behind the last.
// Widths become `usize` by `as`, here and below, since no `From` takes a `u32` there.
// A turn goes through one word: `q` numbers of `p` bits are as many bits as `p` numbers of `q`.
fn repack(order: BitOrder, src: &[u8], p: u32, q: u32, out: &mut [u8])
    requires to { q ≤ 8 }
    requires word { q * p ≤ 32 }
    requires some { p ≡ 0 → length out.old ≡ 0 }
    requires few { length out.old ≤ 1024 }
    requires fit { Fit p src.now }
    ensures { Repacked order p q src.now (length out.old) out.new }
{
    // With no number to write, `p` may be 0.
    if out.is_empty() {
        return;
    }
    // By ranges: behind `chunks_mut` the proof knows no number of `out`.
    for turn in 0..out.len().div_ceil(p as usize) {
        let from = turn * p as usize;
        let to = (from + p as usize).min(out.len());
        let word = order.gather(src, turn * q as usize, q, p);
        order.spread(word, q * p, q, &mut out[from..to]);
    }
}

// Whether `k` bytes hold `n` levels of `b` bits, and no more than their groups take.
fn has_room(n: usize, b: u32, k: usize) -> bool
    ensures { Decides result (Room n b k) }
{
    n <= 1024 && b <= 4 && k <= n.div_ceil(8) * b as usize && n * b as usize <= 8 * k
}

// Whether each number has at most `b` bits.
fn fits(numbers: &[u8], b: u32) -> bool
    requires { b ≤ 4 }
    ensures { Decides result (Fit b numbers.now) }
{
    are_below(1 << b, numbers)
}

// Packs levels that fit into all of `out`. It stands apart so that levels too wide are refused at its call.
fn fill(order: BitOrder, levels: &[u8], b: u32, out: &mut [u8])
    requires room { Room (length levels.now) b (length out.old) }
    requires fit { Fit b levels.now }
    ensures { out.new ≡ packed order b (length out.old) levels.now }
{
    repack(order, levels, b, 8, out);
}

// Packs the levels, of `b` bits each, into all of `out`, if each fits and `out` is as long as they take: else nothing is
// changed.
pub fn pack(order: BitOrder, levels: &[u8], b: u32, out: &mut [u8]) -> Option<()>
    ensures { Packs order b levels.now out.old out.new result }
{
    if !has_room(levels.len(), b, out.len()) || !fits(levels, b) {
        return None;
    }
    fill(order, levels, b, out);
    Some(())
}

// Whether `bytes` are those of some `n` levels: all levels behind them in the last group are 0.
fn is_written(order: BitOrder, bytes: &[u8], b: u32, n: usize) -> bool
    requires { Room n b (length bytes.now) }
    ensures { Decides result (Written order b n bytes.now) }
{
    let from = n / 8 * b as usize;
    let mut group = [0; 8];
    repack(order, &bytes[from..], 8, b, &mut group);
    group[n % 8..].iter().all(|level| *level == 0)
}

// Reads levels of `b` bits into all of `levels`, if `bytes` are what `pack` writes of them: else nothing is changed.
pub fn unpack(order: BitOrder, bytes: &[u8], b: u32, levels: &mut [u8]) -> Option<()>
    ensures { Unpacks order b bytes.now levels.old levels.new result }
{
    if !has_room(levels.len(), b, bytes.len()) || !is_written(order, bytes, b, levels.len()) {
        return None;
    }
    repack(order, bytes, 8, b, levels);
    Some(())
}
