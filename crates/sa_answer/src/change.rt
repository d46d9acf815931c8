//! What comes of a request that changes what is remembered.

ghost use Rattle.std.specs.Prelude.{◌≡◌, []};

use arrayvec::ArrayVec;
use mad_layout::{MadStatus, SA_DATA_BYTES};
use pkey_rules::PARTITIONS;

/// What comes of a Set or a Delete that is not refused: the data of its reply, and the numbers of the partitions whose
/// receivers changed.
#[derive(Drop)]
pub(crate) struct Change {
    pub(crate) data: [u8; SA_DATA_BYTES],
    pub(crate) numbers: ArrayVec<u16, PARTITIONS>,
}

/// A change, or the status by which a Set or a Delete is refused.
pub(crate) type ChangeOutcome = Result<Change, MadStatus>;

impl Change {
    /// One after which the same receive as before.
    pub(crate) fn of_no_receivers(content: [u8; SA_DATA_BYTES]) -> Change
        ensures reply { result.«data» ≡ content }
        ensures numbers { result.numbers.items ≡ [] }
    {
        Change {
            data: content,
            numbers: ArrayVec::new(),
        }
    }
}
