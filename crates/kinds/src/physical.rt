ghost use Rattle.std.specs.Prelude.{◌≡◌};
ghost use Rattle.kinds.specs.Meaning.{thrift};

// The format's physical types that this writer has, under their numbers in parquet.thrift.
#[derive(Clone, Copy, PartialEq, Eq, Debug)]
pub enum PhysicalType {
    Int32 = 1,
    Int64 = 2,
    Float = 4,
    Double = 5,
    ByteArray = 6,
    FixedLenByteArray = 7,
}

impl PhysicalType {
    // The number that the format has for it.
    pub fn number(self) -> u8
        ensures { result ≡ thrift self }
    {
        // The discriminant is that number.
        self as u8
    }
}
