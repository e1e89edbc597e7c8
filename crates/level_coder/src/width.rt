ghost use Rattle.std.specs.Prelude.{◌≡◌, ◌+◌, ◌≤◌};
ghost use Rattle.level_coder.specs.Widths.{BitLength};

// How many of eight bits stand behind the leading zeros. It stands apart so that a wrong count is refused here, by itself.
fn bits_behind(zeros: u32) -> u32
    requires { zeros ≤ 8 }
    ensures { zeros + result ≡ 8 }
{
    u8::BITS - zeros
}

// The bit width of levels up to `max`: the fewest bits that write it.
pub fn bit_width(max: u8) -> u32
    ensures { BitLength max result }
{
    bits_behind(max.leading_zeros())
}
