//! A batch that is kept.
use crate::reply::Counts;

/// An accepted batch, as it is kept.
#[derive(Drop)]
pub struct KeptBatch {
    /// Its key.
    pub key: String,
    /// Its text, as bytes: rows that no batch made may have any bytes here, even ones that are not
    /// UTF-8.
    pub text: Vec<u8>,
    /// How many edits of each kind it had.
    pub counts: Counts,
    /// Its serial, from 1.
    pub serial: u64,
}
