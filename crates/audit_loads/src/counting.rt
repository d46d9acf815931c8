//! How many pairs there are, how many of these are lost, and of how many it is unknown whether they are.

ghost use Rattle.std.specs.Prelude.{◌≡◌, ◌+◌, IfOk};
ghost use Rattle.audit_loads.specs.Counts.{counted_by, plus};

use audit_net::Fate;
use std::alloc::AllocError;

/// A number of pairs.
#[derive(Clone, Copy)]
pub(crate) struct Counts {
    pub(crate) pairs: usize,
    /// How many of them do not reach the end port of their LID.
    pub(crate) lost: usize,
    /// How many come to an entry that is not reported.
    pub(crate) unknown: usize,
}

/// No pairs.
pub(crate) fn no_pairs() -> Counts
    ensures { result ≡ record { pairs = 0; lost = 0; unknown = 0 } }
{
    Counts {
        pairs: 0,
        lost: 0,
        unknown: 0,
    }
}

/// So many pairs from one switch to one LID: all have one fate.
pub(crate) fn counted_by(fate: Fate, count: usize) -> Counts
    ensures { result ≡ counted_by fate count }
{
    let (lost, unknown) = match fate {
        Fate::Reached => (0, 0),
        Fate::Unknown => (0, count),
        _ => (count, 0),
    };
    Counts {
        pairs: count,
        lost,
        unknown,
    }
}

/// Both together. A sum that is too great is refused as if memory ran out.
pub(crate) fn plus(one: Counts, more: Counts) -> Result<Counts, AllocError>
    ensures { IfOk result (λ sum. sum ≡ plus one more) }
{
    let (Some(pairs), Some(lost), Some(unknown)) = (
        one.pairs.checked_add(more.pairs),
        one.lost.checked_add(more.lost),
        one.unknown.checked_add(more.unknown),
    ) else {
        return Err(AllocError);
    };
    Ok(Counts {
        pairs,
        lost,
        unknown,
    })
}
