//! The limits of requests and of the heads of answers.

/// The most bytes that the head of a request may have, empty lines before it included.
pub const HEAD_LIMIT: usize = 16_384;

/// The most field lines that the head of a request may have.
pub const FIELD_LIMIT: usize = 64;

/// The most bytes that the body of a request may have.
pub const BODY_LIMIT: usize = 8_388_608;

/// The most bytes that the head of an answer has.
pub const ANSWER_HEAD_LIMIT: usize = 288;

/// The most digits that a number of 64 bits has.
pub const NUMBER_LIMIT: usize = 20;
