//! Why bytes are refused, and where.

/// What is wrong with a descriptor.
#[derive(Clone, Copy, Debug, PartialEq, Eq, Hash)]
pub enum DescWhy {
    /// There are too few bytes for a descriptor to begin with.
    Short = 1,
    /// A descriptor's length is below what its kind has, or runs past the end.
    Length = 2,
    /// The first descriptor is of another kind.
    Kind = 3,
    /// The configuration's total length isn't the number of bytes.
    Total = 4,
    /// A descriptor stands where it may not.
    Order = 5,
    /// There are over 8 interfaces, or over 16 endpoints.
    TooMany = 6,
}

/// The first fault of refused bytes.
#[derive(Clone, Copy, Debug, PartialEq, Eq, Hash)]
pub struct DescFault {
    /// The number of bytes before the fault.
    pub at: u16,
    /// What is wrong there.
    pub why: DescWhy,
}
