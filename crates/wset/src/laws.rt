//! The laws of views. The functions do nothing when run: each is the proof of its contract.
ghost use Rattle.wset.specs.Laws.{JoinLaws, LaterNames, SameItemsSameView, ViewOfUnion, ViewHasGreatestFloors, ViewHasStatus};
ghost use Rattle.wset.specs.Laws.{ViewsAreSettled};

/// Joining views is associative, commutative and idempotent.
pub fn join_laws()
    ensures { JoinLaws }
{}

/// The view of two lists of items together is the join of their views.
pub fn view_of_union()
    ensures { ViewOfUnion }
{}

/// The view of items tells the status of each name among them.
pub fn view_tells_status()
    ensures { ViewHasStatus }
{}

/// The view of items has no name below a floor.
pub fn views_are_settled()
    ensures { ViewsAreSettled }
{}

/// The floor of an origin in a view of items is the greatest that is among them.
pub fn views_have_greatest_floors()
    ensures { ViewHasGreatestFloors }
{}

/// The same items, in whatever order and however often, have one view.
pub fn same_items_same_view()
    ensures { SameItemsSameView }
{}

/// A name behind all that are known is added at the end.
pub fn later_names()
    ensures { LaterNames }
{}
