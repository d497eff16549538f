//! A keeper that answers pages and summaries of collections of any other one from an index in
//! memory.
//!
//! An index has a collection's title and time property, and the outlines of its features
//! (`streetmap_outlines`). By these a page is counted, and only those features are read that the
//! page shows, or of which the outline does not show whether the query selects them; and by these
//! the collection is described.
//!
//! What is known of a collection is learnt when it is first read, and follows each batch that is
//! accepted. If memory runs out for that, all is forgotten, and the next reads learn nothing. A
//! fault that shuts the other keeper leaves nothing known. If a collection is not known, the other
//! keeper answers.
//!
//! In the order of reading: `outlined` (what is known of a collection, and how it follows edits),
//! `knowledge` (how it is learnt from a keeper), `index` (what is known of some collections),
//! `run` and `page`, `summaries`, `keeper`.
#![tactic(auto)]

mod index;
mod keeper;
mod knowledge;
mod outlined;
mod page;
mod run;
mod summaries;

pub use keeper::IndexedKeeper;
