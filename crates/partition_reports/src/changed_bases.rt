//! The bases of partitions.

ghost use Rattle.std.specs.Prelude.{◌≡◌, map, IfOk};
ghost use Rattle.partition_reports.specs.Changes.{bases_named};

use crate::bases::rising;
use partition_file::Heading;
use std::alloc::{AllocError, Global};

/// The bases of which there is a partition in either list, each once, rising.
pub(crate) fn bases_named(
    alloc: Global,
    before: &[Heading],
    after: &[Heading],
) -> Result<Vec<u16>, AllocError>
    ensures { IfOk result (λ bases. bases.items ≡ bases_named before.now after.now) }
{
    let mut bases = in_turn(alloc, before)?;
    let others = in_turn(alloc, after)?;
    bases.extend_from_slice(&others)?;
    Ok(rising(bases))
}

fn in_turn(alloc: Global, headings: &[Heading]) -> Result<Vec<u16>, AllocError>
    ensures { IfOk result (λ bases. bases.items ≡ map (λ heading. heading.base) headings.now) }
{
    headings.iter().map(|heading| heading.base).collect(alloc)
}
