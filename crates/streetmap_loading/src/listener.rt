//! A listener to the progress of a load.
use crate::text_fault::TextFault;

/// Receives the progress of a load. It does not change what is loaded.
pub trait Listener {
    /// The load has found `features` features in the text, in about `bytes` bytes.
    fn reached(&mut self, features: u64, bytes: u64);

    /// A feature at fault is skipped.
    fn passed_over(&mut self, fault: TextFault);
}

/// So a caller can lend one and use it afterwards.
impl<L: Listener> Listener for &mut L {
    fn reached(&mut self, features: u64, bytes: u64) {
        (**self).reached(features, bytes);
    }

    fn passed_over(&mut self, fault: TextFault) {
        (**self).passed_over(fault);
    }
}
