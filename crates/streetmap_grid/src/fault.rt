/// What a constructor of this crate refuses.
#[derive(Clone, Copy, PartialEq, Eq, Drop)]
pub enum GridFault {
    /// A coordinate or height is below -1,000,000,000 or above 1,000,000,000 millimetres.
    OutOfGrid,
    /// A line has fewer than two positions (RFC 7946, section 3.1.4).
    ShortLine,
    /// A ring has fewer than four positions (RFC 7946, section 3.1.6).
    ShortRing,
    /// The first and last positions of a ring differ, perhaps only in height (RFC 7946, section
    /// 3.1.6).
    OpenRing,
    /// A bound of a box is below -2,000,000,000 or above 2,000,000,000 millimetres, or west lies
    /// east of east, or south north of north.
    BadBox,
}
