//! What the kept texts of accepted batches reproduce: the journal of a state, its followers, and
//! whether the texts give what a keeper shows.
//!
//! The text of a batch reads again as the batch (`specs/Again`). The journal of a state is the
//! texts of its accepted batches in order of their serials (`specs/Journal`), each a line with its
//! serial (`specs/Lines`, `specs/JournalText`). Followed from the opening state on it gives the
//! state that it was kept in (`specs/Following`, `specs/Replay`), in one sitting or in many
//! (`specs/Sittings`).
//!
//! `follow_lines` reads lines of a journal, or batches alone, from a reader, in order, and applies
//! the batch of each to any keeper that returns the batches it keeps: of a journal's line if its
//! serial is the next one, or that of its key. It reports the reply to each, and ends at the first
//! line that is not followed. So the same lines, given again, continue from there, since a batch
//! that was accepted before is repeated. `specs/Ends` is its result.
//!
//! `check_replay` follows the texts of the batches that a keeper keeps, in order of their serials,
//! in a second keeper that begins with nothing; then it compares the collections of both. It
//! returns success exactly if the replay of the state is the state, and else the first batch or the
//! first collection that the texts do not reproduce (`specs/Given`, `specs/Checked`).
//!
//! Modules, in the order of reading: `length`, `laws`; for following `follow_fault`, `line_bytes`
//! (bytes as a line), `serial` (which serial is the next), `actions` (one line), `replies` (where
//! replies are reported), `follower`, `reply_lines` (replies as text); for
//! replaying `fault`, `batches` (each reproduced from its text), `features` and `collections` (what
//! two keepers show), `comparison` (the whole).
#![tactic(auto)]

mod actions;
mod batches;
mod collections;
mod comparison;
mod fault;
mod features;
mod follow_fault;
mod follower;
pub mod laws;
mod length;
mod line_bytes;
mod replies;
mod reply_lines;
mod serial;

pub use actions::{Acknowledged, follow_line};
pub use batches::replay;
pub use collections::compare_collections;
pub use comparison::check_replay;
pub use fault::ReplayFault;
pub use follow_fault::FollowFault;
pub use follower::{Followed, follow_lines};
pub use length::MAX_LINE;
pub use line_bytes::{Line, read_line};
pub use replies::{NotReported, Replies};
pub use reply_lines::ReplyLines;
