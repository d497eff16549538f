//! How long a line may be.

/// The most bytes that a line of a journal may have, without its line feed: 16 MiB. The text of a
/// batch may be longer than the body that brought it.
pub const MAX_LINE: usize = 16_777_216;
