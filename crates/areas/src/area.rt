ghost use Rattle.std.specs.Prelude.{◌≡◌, ◌+◌, length, nat_le};
ghost use Rattle.areas.specs.Areas.{allowed, Checked, laid};

use sinks::SinkFault;

// Whether the sinks over an area use one of this size.
pub fn allowed_area(size: usize) -> bool
    ensures { result ≡ allowed size }
{
    (4..=65535).contains(&size)
}

// A sink's own check of its area.
pub fn check_area(size: usize) -> Result<(), SinkFault>
    ensures { Checked size result }
{
    if allowed_area(size) {
        Ok(())
    } else {
        Err(SinkFault::Area)
    }
}

// Whether `len` bytes fit behind the first `used` of `size`.
pub fn fits(used: usize, len: usize, size: usize) -> bool
    ensures { result ≡ nat_le (used + len) size }
{
    size.checked_sub(used).is_some_and(|left| len <= left)
}

// Writes `bytes` over those at `at`, where they fit.
pub fn lay(area: &mut [u8], at: usize, bytes: &[u8])
    ensures { area.new ≡ laid area.old at bytes.now }
{
    if fits(at, bytes.len(), area.len()) {
        area[at..at + bytes.len()].copy_from_slice(bytes);
    }
}
