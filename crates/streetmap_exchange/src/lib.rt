//! Collections of features as GeoJSON texts, read into batches and written out of a keeper; and the
//! lines of kept batches.
//!
//! `import_batch` makes of the text of a FeatureCollection the batch that puts its features into a
//! collection; `specs/Imports` defines which batch, and which refusal comes first. `apply_import`
//! applies it to a keeper, and returns the body of the reply; `specs/KeeperImports` defines what is
//! returned, and which state the keeper then represents. `import` is both.
//!
//! `export` writes the text of a whole collection, page by page, over any keeper; `specs/Exports`
//! defines which text, and what was written if it ends early.
//!
//! Each reports its progress to a `Progress`, which cannot change the result.
//!
//! `write_batches` writes a line for each batch that a keeper keeps after a serial, in order of
//! their serials; `specs/Printed` defines which bytes, and what was written if it ends early. It
//! reads a few batches at a time from the keeper, so that the memory it takes does not grow with
//! their number. These lines are those of the state's journal (`line_laws`).
//!
//! Modules, in the order of reading: `fault`, `progress`, `imports`, `keeper_imports`, `part`,
//! `exports`, `laws`; `batch_lines`, `batches`, `line_laws`.
#![tactic(auto)]

mod batch_lines;
mod batches;
mod exports;
mod fault;
mod imports;
mod keeper_imports;
pub mod laws;
pub mod line_laws;
mod part;
mod progress;

pub use batches::write_batches;
pub use exports::export;
pub use fault::{ExportFault, ImportFault};
pub use imports::{MAX_TEXT, import_batch};
pub use keeper_imports::{apply_import, import};
pub use progress::Progress;
