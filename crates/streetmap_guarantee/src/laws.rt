//! Laws of tags and conditions, of changes, of serials, and of services that refuse batches.
ghost use Rattle.streetmap_guarantee.specs.Changes.{ChangesAreAnswered};
ghost use Rattle.streetmap_guarantee.specs.Guarded.{FencedIsUnchanged, FollowerIsUnchanged};
ghost use Rattle.streetmap_guarantee.specs.Guarded.{ScriptIsServed};
ghost use Rattle.streetmap_guarantee.specs.Serials.{SerialIsOfTheStateAfter, OtherPathsAreTheSame};
ghost use Rattle.streetmap_guarantee.specs.Tagging.{OneTagOneState, NotModifiedIsTheSame};
ghost use Rattle.streetmap_guarantee.specs.Tagging.{NoLostChange};
ghost use Rattle.streetmap_guarantee.specs.WithoutOptions.{AllArePlain};

/// If two answers of a history have one tag, the states after their requests are the same.
pub fn one_tag_one_state()
    ensures { OneTagOneState }
{}

/// A 304 comes only if the answer would have been the one that had its tag.
pub fn not_modified_is_the_same()
    ensures { NotModifiedIsTheSame }
{}

/// A batch under `If-Match` that was answered with status 200 acted on the state of its tag, or is
/// a repeat.
pub fn no_lost_change()
    ensures { NoLostChange }
{}

/// A request for changes is answered with the lines of the batches after its serial, in order, of
/// which none is left out.
pub fn changes_are_answered()
    ensures { ChangesAreAnswered }
{}

/// Of a service that offers its status, an answer that needs the state shows the serial of the
/// state after the request, and is otherwise as without it.
pub fn serial_is_of_the_state_after()
    ensures { SerialIsOfTheStateAfter }
{}

/// A request for another path than `/status` wants of such a service what it wants without it.
pub fn other_paths_are_the_same()
    ensures { OtherPathsAreTheSame }
{}

/// Without options a request wants what its method, target and body say, and is answered by the
/// state alone, without a tag and a serial.
pub fn all_are_plain_without_options()
    ensures { AllArePlain }
{}

/// No request changes the state of a fenced server: each batch is answered with status 403, and any
/// other request as ever.
pub fn fenced_is_unchanged()
    ensures { FencedIsUnchanged }
{}

/// No request without the token of its script changes the state of a follower.
pub fn follower_is_unchanged()
    ensures { FollowerIsUnchanged }
{}

/// A request with the token of its script wants of a follower what it wants of any server.
pub fn script_is_served()
    ensures { ScriptIsServed }
{}
