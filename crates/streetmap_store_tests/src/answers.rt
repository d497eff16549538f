//! The answers of keepers.
use std::alloc::Global;
use std::io::BufWriter;
use streetmap_ledger::{Keeper, read_batch};
use streetmap_routes::{Base, Offers};
use streetmap_tags::Tagged;
use streetmap_web::{Guard, Site, serve};

/// A keeper's answers to requests, of a service with tags and changes or without both; none if
/// memory runs out.
pub(crate) fn answers<K: Tagged>(
    alloc: Global,
    keeper: &mut K,
    tags: bool,
    requests: &str,
) -> Option<Vec<u8>> {
    let base = Base::new(alloc, "http://localhost/").ok()??;
    let site = Site {
        base,
        tags,
        offers: Offers {
            changes: tags,
            status: false,
        },
        guard: Guard::Free,
    };
    let mut reader = requests.as_bytes();
    let mut writer = BufWriter::new(alloc, Vec::new(alloc)).ok()?;
    let _served = serve(alloc, keeper, &site, &mut reader, &mut writer);
    writer.into_inner().ok()
}

/// Whether a batch, given as text, was answered.
pub(crate) fn is_answered<K: Keeper>(alloc: Global, keeper: &mut K, text: &str) -> bool {
    match read_batch(alloc, text.as_bytes()) {
        Ok(batch) => keeper.apply(&batch).is_ok(),
        Err(_) => false,
    }
}
