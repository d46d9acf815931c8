//! Stamps of the nodes that a walk comes to.

ghost use Rattle.std.specs.Prelude.{ℕ, ◌≡◌, ◌<◌, ◌==◌, ◌||◌, length, not};
ghost use Rattle.audit_loads.specs.Walk.{is_stamped, AreBelow};

use crate::sums::set_at;

/// Stamps the node there; false if it has the stamp.
pub(crate) fn stamp_at(marks: &mut [usize], place: usize, stamp: usize) -> bool
    requires { 0 < stamp }
    ensures free { result ≡ not (is_stamped marks.old stamp place) }
    ensures long { length marks.new ≡ length marks.old }
    ensures stamped { (other : ℕ) → other < length marks.old
        → is_stamped marks.new stamp other ≡ (is_stamped marks.old stamp other || (place == other)) }
    ensures below { AreBelow stamp marks.old → AreBelow stamp marks.new }
{
    if place >= marks.len() {
        return true;
    }
    let is_free = marks[place] != stamp;
    set_at(marks, place, stamp);
    is_free
}
