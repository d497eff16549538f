//! The progress of an import or an export.

/// The number of features between two reports.
const STEP: u64 = 1_000;

/// Receives the progress of an import or an export. It does not change what is imported or written.
pub trait Progress {
    /// This number of features was read from the text, or written of the collection: 1,000, 2,000
    /// and so on.
    fn reached(&mut self, features: u64);
}

/// Reports the number of features, at each thousandth.
pub(crate) fn report<P: Progress>(progress: &mut P, features: u64) {
    if features > 0 && features % STEP == 0 {
        progress.reached(features);
    }
}
