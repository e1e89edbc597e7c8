ghost use Rattle.std.specs.Prelude.{◌≡◌, length, count_by, nat_eq, nat_lt};
ghost use Rattle.std.specs.List.{list_all};
ghost use Rattle.counting.specs.Counting.{wanted};

use std::simd::prelude::*;

// How many of the numbers are this one.
pub fn count_of(number: u8, numbers: &[u8]) -> usize
    ensures { result ≡ count_by (nat_eq number) numbers.now }
{
    Wanted::Is(number).count(numbers)
}

// Whether each number is below a limit.
pub fn are_below(limit: u8, numbers: &[u8]) -> bool
    ensures { result ≡ list_all (λ n. nat_lt n limit) numbers.now }
{
    Wanted::Below(limit).count(numbers) == numbers.len()
}

// The numbers that are counted: one itself, or all below a limit.
#[derive(Clone, Copy)]
enum Wanted {
    Is(u8),
    Below(u8),
}

impl Wanted {
    fn count(self, numbers: &[u8]) -> usize
        ensures { result ≡ count_by (wanted self) numbers.now }
    {
        let mut count = 0;
        let mut at = 0;
        while numbers.len() - at >= 16 {
            // By `as`, since no `From` takes a `u32` to a `usize`.
            count += self.count_lanes(u8x16::from_slice(&numbers[at..])) as usize;
            at += 16;
        }
        count + self.count_rest(&numbers[at..])
    }

    // How many of sixteen numbers.
    fn count_lanes(self, lanes: u8x16) -> u32
        requires { length lanes ≡ 16 }
        ensures { result ≡ count_by (wanted self) lanes }
    {
        match self {
            Self::Is(one) => count_equal(lanes, one),
            Self::Below(limit) => count_below(lanes, limit),
        }
    }

    // How many of the numbers, one after the other.
    fn count_rest(self, numbers: &[u8]) -> usize
        ensures { result ≡ count_by (wanted self) numbers.now }
    {
        match self {
            Self::Is(one) => numbers.iter().filter(|n| one == **n).count(),
            Self::Below(limit) => numbers.iter().filter(|n| **n < limit).count(),
        }
    }
}

// How many of sixteen numbers are this one.
fn count_equal(lanes: u8x16, one: u8) -> u32
    requires { length lanes ≡ 16 }
    ensures { result ≡ count_by (nat_eq one) lanes }
{
    lanes.simd_eq(u8x16::splat(one)).to_bitmask().count_ones()
}

// How many of sixteen numbers are below a limit.
fn count_below(lanes: u8x16, limit: u8) -> u32
    requires { length lanes ≡ 16 }
    ensures { result ≡ count_by (λ n. nat_lt n limit) lanes }
{
    lanes.simd_lt(u8x16::splat(limit)).to_bitmask().count_ones()
}
