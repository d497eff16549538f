//! The objects of the formats.
/// The objects that a batch is made of, by the members that they may have.
#[derive(Clone, Copy, PartialEq, Eq, Drop)]
pub(crate) enum Format {
    Batch,
    Open,
    Feature,
    Delete,
}

/// What an edit does, by its member `op`.
#[derive(Clone, Copy, PartialEq, Eq, Drop)]
pub(crate) enum Operation {
    Open,
    Insert,
    Replace,
    Delete,
}
