//! Why a report descriptor is refused, and where.

/// The first fault of a report descriptor.
#[derive(Clone, Copy, Debug, PartialEq, Eq)]
pub struct LayoutFault {
    /// The first byte of the item at which the fault stands, or the descriptor's length where a collection
    /// is open at its end.
    pub at: u16,
    pub why: LayoutWhy,
}

/// The first four causes are malformed descriptors, the others limits. Where several faults stand at one
/// item, the first of this order is named.
#[derive(Clone, Copy, Debug, PartialEq, Eq)]
pub enum LayoutWhy {
    /// An item runs past the end.
    Truncated,
    /// End Collection or Pop has nothing to close, or a collection is open at the end.
    Unbalanced,
    /// A non-constant Input item has size 0 and a count above 0.
    ZeroSize,
    /// A Report ID is 0 or above 255.
    BadId,
    /// There are over 64 non-constant Input items.
    Fields,
    /// There are over 32 usages and ranges before one main item.
    Usages,
    /// Over 16 collections are open.
    Depth,
    /// Over 4 Push items are open.
    Pushes,
    /// A non-constant Input item has a size above 32 bits.
    Wide,
    /// A report is above 512 bits.
    Long,
}
