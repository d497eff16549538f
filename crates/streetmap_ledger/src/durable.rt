//! A keeper whose store can be opened again.
ghost use Rattle.std.specs.Prelude.{Some};
ghost use Rattle.streetmap_ledger.specs.State.{State};

use crate::keeper::Keeper;

/// A keeper whose store can be opened again after a crash.
///
/// An implementer says which images of its store a crash may leave and which state an image holds,
/// and proves one law.
pub trait Durable: Keeper {
    /// What can be found of a store that was open.
    ghost image: { Type 0 };

    /// A crash may leave this image.
    ghost leaves: { Self → image → Type 0 };

    /// The image holds this state: a keeper that opens it represents the state again.
    ghost holds: { image → State → Type 0 };

    /// After calls that began at a state, if the store is clean, each image that a crash may leave
    /// holds a state, and one of those that a crash may leave.
    ghost images_hold_states: { (first last : Self) (s : State) (it : image) →
        Self.model.represents first s → Self.model.preserves first last →
        Self.model.is_clean last → leaves last it →
        (t : State) × holds it t × Self.model.may_leave last (Some t) };
}
