//! End ports as they were and as they will be.

ghost use Rattle.std.specs.Prelude.{◌≡◌, map, IfOk};
ghost use Rattle.std.specs.List.{zip};
ghost use Rattle.partition_reports.specs.FoundChanges.{seen};

use std::alloc::{AllocError, Global};
use subnet_model::SubnetPort;

/// An end port as it was and as it will be.
#[derive(Clone, Copy)]
pub(crate) struct Both<'a> {
    pub(crate) before: &'a SubnetPort,
    pub(crate) after: &'a SubnetPort,
}

/// Each port of one list with that of its place in the other.
pub(crate) fn side_by_side<'a>(
    alloc: Global,
    before: &'a [SubnetPort],
    after: &'a [SubnetPort],
) -> Result<Vec<Both<'a>>, AllocError>
    ensures { IfOk result (λ ports. map seen ports.items ≡ zip before.now after.now) }
{
    before
        .iter()
        .zip(after.iter())
        .map(|(before, after)| Both { before, after })
        .collect(alloc)
}
