ghost use Rattle.std.specs.Prelude.{◌≡◌, ℕ, ◌+◌, ◌-◌, ◌*◌, ◌^◌, ◌<◌, ◌≤◌, ◌++◌, length, drop};
ghost use Rattle.bits.specs.Rows.{bits_of, row, cut, first, Fit};

use crate::order::BitOrder;

// Numbers of a few bits each in one word, which holds its first bits where the order says.
impl BitOrder {
    // The bits of `acc`, of which there are `held`, and behind them the `width` bits of `v`.
    #[tactic(auto, using(crate::proofs::Words::joined_low, crate::proofs::Words::joined_high, crate::proofs::Words::joined_least, crate::proofs::Words::joined_most))]
    fn join(self, acc: u64, held: u32, v: u8, width: u32) -> u64
        requires few { held + width ≤ 32 }
        requires holds { acc < 2 ^ held }
        requires fits { v < 2 ^ width }
        ensures small { result < 2 ^ (held + width) }
        ensures bits { bits_of self (held + width) result ≡ bits_of self held acc ++ bits_of self width v }
    {
        let v = u64::from(v);
        match self {
            Self::LeastFirst => v << held | acc,
            Self::MostFirst => acc << width | v,
        }
    }

    // The first `width` of the `held` bits of `acc`, and what is left.
    #[tactic(auto, using(crate::proofs::Words::parted_rest, crate::proofs::Words::parted_front, crate::proofs::Words::parted_byte, crate::proofs::Words::parted_least, crate::proofs::Words::parted_most))]
    fn part(self, acc: u64, held: u32, width: u32) -> (u8, u64)
        requires few { held ≤ 32 }
        requires narrow { width ≤ 8 }
        requires there { width ≤ held }
        requires holds { acc < 2 ^ held }
        ensures given { result.0 < 2 ^ width }
        ensures left { result.1 < 2 ^ (held - width) }
        ensures bits { bits_of self held acc ≡ bits_of self width result.0 ++ bits_of self (held - width) result.1 }
    {
        match self {
            // What is left of `width` bits fits a byte, so `as` loses nothing.
            Self::LeastFirst => ((acc & ((1 << width) - 1)) as u8, acc >> width),
            Self::MostFirst => {
                let left = held - width;
                ((acc >> left) as u8, acc & ((1 << left) - 1))
            }
        }
    }

    // The bits of `count` numbers of `width` bits from `at` on, 0 behind the last, as one word.
    pub(crate) fn gather(self, src: &[u8], at: usize, count: u32, width: u32) -> u64
        requires near { at ≤ 65536 }
        requires few { count ≤ 8 }
        requires word { count * width ≤ 32 }
        requires fit { Fit width src.now }
        ensures small { result < 2 ^ (count * width) }
        ensures bits { bits_of self (count * width) result ≡ row self width (first count (drop at src.now)) }
    {
        let mut acc = 0;
        // By count and not over `src`: a turn may reach behind its last number.
        for t in 0..count {
            let v = src.get(at + t as usize).copied().unwrap_or(0);
            acc = self.join(acc, t * width, v, width);
        }
        acc
    }

    // The first bits of the `held` bits of `acc`, cut into numbers of `width` bits, into all of `out`.
    pub(crate) fn spread(self, acc: u64, held: u32, width: u32, out: &mut [u8])
        requires few { held ≤ 32 }
        requires narrow { width ≤ 8 }
        requires there { length out.old * width ≤ held }
        requires holds { acc < 2 ^ held }
        ensures { out.new ≡ cut self width (length out.old) (bits_of self held acc) }
    {
        let mut left = acc;
        let mut bits = held;
        for number in out.iter_mut() {
            let (v, rest) = self.part(left, bits, width);
            *number = v;
            left = rest;
            bits -= width;
        }
    }
}
