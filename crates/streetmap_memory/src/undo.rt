//! How an edit is taken back. None of it allocates memory.
use streetmap_feature_text::PackedFeature;

#[derive(Drop)]
pub enum Undo<'a> {
    /// A collection was opened.
    Open(&'a str),
    /// A slot was created.
    Add(&'a str, &'a str),
    /// A slot was changed that had this.
    Set(&'a str, &'a str, Option<PackedFeature>),
}
