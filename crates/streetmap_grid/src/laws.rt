//! What holds of the definitions of this crate, for all plain values. Each law is the contract of a
//! function that does nothing.
ghost use Rattle.streetmap_grid.specs.Laws.{MeetingTestIsRelation, OverlapTestIsRelation};
ghost use Rattle.streetmap_grid.specs.Laws.{WhatMeetsOverlaps, WithinTestIsRelation};
ghost use Rattle.streetmap_grid.specs.Laws.{WhatLiesWithinMeets, ExtentIsOneBox};
ghost use Rattle.streetmap_grid.specs.Laws.{ClosedRingsAreEven, NoneIsInsideOutside};
ghost use Rattle.streetmap_grid.specs.Laws.{OrientedIsRight, RightIsUnchanged};

/// The test of a geometry against a box is true exactly if the relation by fractions holds.
pub fn meeting_test_is_relation()
    ensures { MeetingTestIsRelation }
{}

/// The test of two boxes is true exactly if they have a point in common.
pub fn overlap_test_is_relation()
    ensures { OverlapTestIsRelation }
{}

/// What meets a box has an extent that overlaps it.
pub fn what_meets_overlaps()
    ensures { WhatMeetsOverlaps }
{}

/// The test of two boxes is true exactly if each point of the one lies in the other.
pub fn within_test_is_relation()
    ensures { WithinTestIsRelation }
{}

/// A geometry whose extent lies within a box meets that box.
pub fn what_lies_within_meets()
    ensures { WhatLiesWithinMeets }
{}

/// The least and greatest coordinates are the one box that holds every position, and each of whose
/// bounds is the coordinate of a position.
pub fn extent_is_one_box()
    ensures { ExtentIsOneBox }
{}

/// A closed ring has an even number of edges with exactly one end above any northing.
pub fn closed_rings_are_even()
    ensures { ClosedRingsAreEven }
{}

/// What is inside of closed rings lies in each box that holds all their positions.
pub fn none_is_inside_outside()
    ensures { NoneIsInsideOutside }
{}

/// No ring of an oriented polygon has the wrong sign.
pub fn oriented_is_right()
    ensures { OrientedIsRight }
{}

/// A polygon of which no ring has the wrong sign stays as it is.
pub fn right_is_unchanged()
    ensures { RightIsUnchanged }
{}
