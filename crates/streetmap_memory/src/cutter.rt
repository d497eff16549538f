//! The texts of features, cut out of the text of their batch.
ghost use Rattle.std.specs.Prelude.{◌≡◌, ◌≤◌, IfOk, IfSome, length, slice_range};
ghost use Rattle.serde_json.specs.Written.{compact_text};
ghost use Rattle.streetmap_feature_text.specs.Written.{feature_data};

use bytes::Bytes;
use memchr::memmem;
use std::alloc::{AllocError, Global};
use streetmap_feature_text::WrittenFeature;

/// The text of a batch, from which the texts of its features are cut in their order. What is cut
/// shares the memory of the whole.
#[derive(Drop)]
pub struct Cutter<'a> {
    whole: &'a Bytes,
    from: usize,
}

impl<'a> Cutter<'a> {
    pub fn new(whole: &'a Bytes) -> Self {
        Cutter { whole, from: 0 }
    }

    /// Where the text begins and ends in the rest of the whole. The next one is searched for after
    /// it.
    fn find(&mut self, text: &[u8]) -> Option<(usize, usize)>
        ensures whole { self.new.whole ≡ self.old.whole }
        ensures found { IfSome result (λ place. (place.0 ≤ place.1)
            × (place.1 ≤ length self.old.whole.now)
            × (slice_range self.old.whole.now place.0 place.1 ≡ text.now)) }
    {
        let whole = self.whole.as_slice();
        let rest = whole.get(self.from..)?;
        let at = self.from.checked_add(memmem::find(rest, text)?)?;
        let end = at.checked_add(text.len())?;
        if end <= whole.len() && &whole[at..end] == text {
            self.from = end;
            Some((at, end))
        } else {
            None
        }
    }

    /// The compact text of a feature: a part of the whole if it is there, else one of its own.
    pub fn cut(&mut self, alloc: Global, feature: &WrittenFeature) -> Result<Bytes, AllocError>
        ensures { IfOk result (λ text. text ≡ compact_text (feature_data feature.now)) }
    {
        let text = feature.text();
        match self.find(text.as_bytes()) {
            Some((at, end)) => self.whole.slice(at..end),
            None => Bytes::copy_from_slice(alloc, text.as_bytes()),
        }
    }
}
