//! What comes of what a port sends.

ghost use Rattle.std.specs.Prelude.{◌≡◌, []};

use arrayvec::ArrayVec;
use mad_layout::Mad;
use pkey_rules::PARTITIONS;

/// What subnet administration does when a port sends it a MAD.
#[derive(Drop)]
pub struct Reaction {
    /// The MADs that answer it, in order.
    pub replies: Vec<Mad>,
    /// The numbers of the partitions whose receivers are others than before, in order.
    pub changed: ArrayVec<u16, PARTITIONS>,
}

impl Reaction {
    /// It is answered, and every port anew to the same groups as before.
    pub(crate) fn answered(replies: Vec<Mad>) -> Reaction
        ensures replies { result.replies ≡ replies }
        ensures changed { result.changed.items ≡ [] }
    {
        Reaction {
            replies,
            changed: ArrayVec::new(),
        }
    }
}
