//! Bases, rising.

ghost use Rattle.std.specs.Prelude.{ℕ, ◌≡◌, ◌==◌, ◌++◌, map, IfOk};
ghost use Rattle.std.specs.List.{list_any};
ghost use Rattle.std.specs.List.Sorted.{IsStrictlyIncreasing};
ghost use Rattle.pkey_rules.specs.PKey.{base_of};
ghost use Rattle.partition_reports.specs.FoundShares.{AreBases};

use pkey_rules::PKey;
use std::alloc::{AllocError, Global};

/// The bases of the keys of a port, each once, rising. It can only run out of memory.
pub(crate) fn bases_of(alloc: Global, keys: &[PKey]) -> Result<Vec<u16>, AllocError>
    ensures { IfOk result (λ bases. AreBases keys.now bases.items) }
{
    let bases = in_turn(alloc, keys)?;
    Ok(rising(bases))
}

/// The bases of the keys of either list, each once, rising. It can only run out of memory.
pub fn bases_of_both(alloc: Global, keys: &[PKey], others: &[PKey]) -> Result<Vec<u16>, AllocError>
    ensures { IfOk result (λ bases. AreBases (keys.now ++ others.now) bases.items) }
{
    let mut bases = in_turn(alloc, keys)?;
    let behind = in_turn(alloc, others)?;
    bases.extend_from_slice(&behind)?;
    Ok(rising(bases))
}

/// These bases, each once, rising.
pub fn rising(bases: Vec<u16>) -> Vec<u16>
    ensures order { IsStrictlyIncreasing result.items }
    ensures same { (base : ℕ) → list_any (λ one. one == base) result.items ≡ list_any (λ one. one == base) bases.items }
{
    let mut sorted = bases;
    sorted.sort_unstable();
    sorted.dedup();
    sorted
}

/// The bases of these keys, in their order.
fn in_turn(alloc: Global, keys: &[PKey]) -> Result<Vec<u16>, AllocError>
    ensures { IfOk result (λ bases. bases.items ≡ map base_of keys.now) }
{
    keys.iter().map(|key| key.base()).collect(alloc)
}
