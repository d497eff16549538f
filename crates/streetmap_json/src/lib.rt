//! JSON texts (RFC 8259) read as values, whole numbers also if they have a fraction of zeros.
//!
//! Usual exporters write the whole number 1200 as `1200.0`, and 0 as `-0`. `read_json` reads the
//! value of the bytes after each such number text was changed to the whole number; the change alone
//! is `with_whole_numbers`. `specs/NumberText` defines what a number text becomes and where the
//! tokens of a text end, `specs/JsonText` the value of bytes. The laws say that the compact text of
//! exact data (`specs/ExactData`: whole numbers, UTF-8 texts, members in order) reads as that data.
//!
//! `read_value` and `read_token` read one value at a time from the tokens of a text, for callers
//! that must not have the whole value in memory.
//!
//! Modules, in the order of reading: `fault`, `number_text`, `number`, `value`, `json_text`,
//! `laws`.
#![tactic(auto)]

mod fault;
mod json_text;
pub mod laws;
mod number;
mod number_text;
mod value;

pub use fault::ParseFault;
pub use json_text::{read_json, read_json_with};
pub use number_text::with_whole_numbers;
pub use value::{read_token, read_value};
