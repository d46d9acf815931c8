//! The order of the lines.

ghost use Rattle.std.specs.Prelude.{◌≡◌, IfOk};
ghost use Rattle.audit_loads.specs.Order.{ordered};

use crate::loaded::Loaded;
use std::alloc::AllocError;

/// Those of the greatest load first, those of one load in the order that they have. It can only run out of memory.
pub(crate) fn ordered(loads: Vec<Loaded>) -> Result<Vec<Loaded>, AllocError>
    ensures { IfOk result (λ all. all.items ≡ ordered loads.items) }
{
    let mut all = loads;
    all.sort_by(|one, other| other.load.cmp(&one.load))?;
    Ok(all)
}
