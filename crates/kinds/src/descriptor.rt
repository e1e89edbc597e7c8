use crate::physical::PhysicalType;

// What is fixed for a kind before any column has it.
#[derive(Clone, Copy, PartialEq, Eq, Debug)]
pub struct Descriptor {
    // the kind's own number
    pub number: u8,
    pub physical_type: PhysicalType,
    // bytes of a value, 0 where each value has its own length, absent where each column has its own
    pub width: Option<usize>,
    pub has_nan: bool,
}
