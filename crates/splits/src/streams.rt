ghost use Rattle.std.specs.Prelude.{◌≡◌, ◌*◌, ◌<◌, ◌≤◌, ◌++◌, length, drop};
ghost use Rattle.splits.specs.Streams.{stream, streams, Scattered, EachPlace, InPlace};

// Writes byte `j` of each value of `k` bytes into all of `out`.
fn write_stream(values: &[u8], j: usize, k: usize, out: &mut [u8])
    requires there { length out.old * k ≤ length values.now }
    requires one { j < k }
    ensures { out.new ≡ stream (length out.old) k values.now j }
{
    // By index: zipped with `chunks_exact`, the proof's loop knows no byte of `out`.
    for (i, byte) in out.iter_mut().enumerate() {
        *byte = values[i * k + j];
    }
}

// Writes `n` values of `k` bytes as `k` streams of `n` bytes.
fn write_streams(values: &[u8], n: usize, k: usize, out: &mut [u8])
    requires there { n * k ≤ length values.now }
    requires room { n * k ≤ length out.old }
    ensures whole { out.new ≡ streams n k values.now ++ drop (n * k) out.old }
    ensures places { EachPlace n k values.now out.new }
{
    // By ranges: behind `chunks_exact_mut` the proof knows no byte of `out`.
    for j in 0..k {
        write_stream(values, j, k, &mut out[j * n..(j + 1) * n]);
    }
}

// The same, if both slices hold the bytes. Answers how many these are: else nothing is changed.
pub fn scatter(values: &[u8], n: usize, k: usize, out: &mut [u8]) -> Option<usize>
    ensures whole { Scattered n k values.now out.old out.new result }
    ensures places { InPlace n k values.now out.new result }
{
    let size = n
        .checked_mul(k)
        .filter(|size| *size <= values.len() && *size <= out.len())?;
    write_streams(values, n, k, out);
    Some(size)
}
