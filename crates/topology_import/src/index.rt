//! GUIDs that are looked up by where they stand.

ghost use Rattle.std.specs.Prelude.{ℕ, ◌≡◌, ◌==◌, ◌++◌, [], ◌∷◌, nat_eq, OnErr, OnOk, position};
ghost use Rattle.indexmap.specs.IndexMap.{get};
ghost use Rattle.topology_import.specs.Index.{first_or};

use indexmap::IndexMap;
use std::alloc::{AllocError, Global};
use std::marker::Model;

/// GUIDs in the order in which they were added, of which each is found where it stands first, in constant time.
#[derive(Drop)]
pub(crate) struct GuidIndex {
    places: IndexMap<u64, usize>,
    guids: Vec<u64>,
}

impl Model for GuidIndex {
    ghost use Rattle.std.specs.Prelude.{ℕ, ◌≡◌, ◌==◌, nat_eq, List, position};
    ghost use Rattle.indexmap.specs.IndexMap.{get};

    ghost Value = { List ℕ };

    ghost view = { λ index. index.guids.items };

    ghost invariant = { λ index. (guid : ℕ) → get nat_eq index.places guid ≡ position (λ other. guid == other) index.guids.items };
}

impl GuidIndex {
    pub(crate) fn new(alloc: Global) -> GuidIndex
        ensures { result ≡ [] }
    {
        GuidIndex {
            places: IndexMap::new(alloc),
            guids: Vec::new(alloc),
        }
    }

    /// Where the GUID stands first.
    pub(crate) fn place_of(&self, guid: u64) -> Option<usize>
        ensures { result ≡ position (λ other. guid == other) self.now }
    {
        self.places.get(&guid).copied()
    }

    /// Adds a GUID at the end. It can only run out of memory, and then the list stays as it was.
    pub(crate) fn push(&mut self, guid: u64) -> Result<(), AllocError>
        ensures ok { OnOk result (self.new ≡ self.old ++ guid ∷ []) }
        ensures err { OnErr result (self.new ≡ self.old) }
    {
        let place = self.guids.as_slice().len();
        self.guids.reserve(1)?;
        note(&mut self.places, guid, place)?;
        self.guids.push(guid)?;
        Ok(())
    }
}

/// Notes the place of a GUID, unless one is noted already.
fn note(places: &mut IndexMap<u64, usize>, guid: u64, place: usize) -> Result<(), AllocError>
    ensures ok { OnOk result ((key : ℕ) → get nat_eq places.new key ≡ first_or (get nat_eq places.old key) (key == guid) place) }
    ensures err { OnErr result ((key : ℕ) → get nat_eq places.new key ≡ get nat_eq places.old key) }
{
    if places.contains_key(&guid) {
        return Ok(());
    }
    places.insert(guid, place)?;
    Ok(())
}
