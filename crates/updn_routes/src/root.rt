//! Which switches are roots.

ghost use Rattle.std.specs.Prelude.{◌≡◌, ◌==◌, nat_le, map, length, get_or, IfOk};
ghost use Rattle.std.specs.List.{list_all, list_any, range_with_len};
ghost use Rattle.updn_routes.specs.Order.{is_first_root, is_root};

use crate::place::guid_of;
use std::alloc::{AllocError, Global};

/// Of each switch whether it is a root. It can only run out of memory.
pub(crate) fn marked_roots(
    alloc: Global,
    guids: &[u64],
    roots: &[u64],
) -> Result<Vec<bool>, AllocError>
    ensures { IfOk result (λ marks. marks.items ≡ map (is_root guids.now roots.now) (range_with_len 0 (length guids.now))) }
{
    (0..guids.len())
        .map(|switch| is_root(guids, roots, switch))
        .collect(alloc)
}

/// Of each switch whether it is the first root. It can only run out of memory.
pub(crate) fn marked_first_root(
    alloc: Global,
    guids: &[u64],
    roots: &[u64],
) -> Result<Vec<bool>, AllocError>
    ensures { IfOk result (λ marks. marks.items ≡ map (is_first_root guids.now roots.now) (range_with_len 0 (length guids.now))) }
{
    (0..guids.len())
        .map(|switch| is_first_root(guids, roots, switch))
        .collect(alloc)
}

/// Whether the switch is a root: is named, or of the least GUID if none is.
#[tactic(auto, using(crate::proofs::RootLemmas::root_named, crate::proofs::RootLemmas::root_least))]
fn is_root(guids: &[u64], roots: &[u64], switch: usize) -> bool
    ensures { result ≡ is_root guids.now roots.now switch }
{
    let own = guid_of(guids, switch);
    if roots.is_empty() {
        is_least(guids, own)
    } else {
        is_named(roots, own)
    }
}

/// Whether no GUID is less.
fn is_least(guids: &[u64], own: u64) -> bool
    ensures { result ≡ list_all (λ guid. nat_le own guid) guids.now }
{
    guids.iter().all(|guid| own <= *guid)
}

/// Whether the GUID is named.
fn is_named(roots: &[u64], own: u64) -> bool
    ensures { result ≡ list_any (λ guid. guid == own) roots.now }
{
    roots.iter().any(|guid| *guid == own)
}

/// Whether the switch is the first root: is the one that is named first, or of the least GUID if none is.
fn is_first_root(guids: &[u64], roots: &[u64], switch: usize) -> bool
    ensures { result ≡ is_first_root guids.now roots.now switch }
{
    match roots.first() {
        Some(first) => *first == guid_of(guids, switch),
        None => is_root(guids, roots, switch),
    }
}
