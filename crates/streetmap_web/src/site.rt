//! A service on the web.
use crate::guard::Guard;
use streetmap_routes::{Base, Offers};

/// What a service is on the web.
#[derive(Drop)]
pub struct Site {
    /// The base of its links.
    pub base: Base,
    /// Whether its answers have tags, and its requests conditions.
    pub tags: bool,
    /// Which paths it offers beside the eight. If it offers `/status`, each answer that needs the
    /// state shows its serial (`Streetmap-Serial`).
    pub offers: Offers,
    /// Which batches it refuses.
    pub guard: Guard,
}
