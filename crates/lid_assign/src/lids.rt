//! LIDs, and the GUIDs that they stand for.

ghost use Rattle.std.specs.Prelude.{◌≡◌, ◌==◌, ◌≤◌, ◌+◌, length};
ghost use Rattle.std.specs.List.{IsDistinct};
ghost use Rattle.lid_assign.specs.Lids.{guid_in, lid_in};
ghost use Rattle.fabric_parts.specs.declared.limits.TheConstants.{ADAPTER_PORTS, SWITCHES};

use std::marker::Model;

/// The LID of each end port of a graph.
///
/// Its value is the list of their GUIDs in order of LID, from LID 1 on. No two are the same.
#[derive(Debug, Drop)]
pub struct Lids {
    /// The GUID of the SM port.
    pub(crate) manager: u64,
    /// The other GUIDs, rising.
    pub(crate) others: Vec<u64>,
}

impl Model for Lids {
    ghost use Rattle.std.specs.Prelude.{ℕ, List, ◌∷◌};
    ghost use Rattle.lid_assign.specs.Lids.{StandInOrder};

    ghost Value = { List ℕ };

    ghost view = { λ lids. lids.manager ∷ lids.others.items };

    ghost invariant = { λ lids. StandInOrder lids.manager lids.others.items };
}

impl Lids {
    /// The LID of the end port with this GUID, if there is one.
    pub fn lid_of(&self, guid: u64) -> Option<u16>
        ensures { result ≡ lid_in self.now guid }
    {
        if guid == self.manager {
            return Some(1);
        }
        match self.others.binary_search(&guid) {
            Ok(place) => Some(2 + place as u16),
            Err(_) => None,
        }
    }

    /// What holds of all LIDs: no two are of one GUID, and there are no more than a graph has end ports.
    pub fn known_distinct(&self)
        ensures own { IsDistinct (λ a b. a == b) self.now }
        ensures few { length self.now ≤ SWITCHES + ADAPTER_PORTS }
    {
        let _ = &self.manager;
    }

    /// The GUID of the end port with this LID, if there is one.
    pub fn port_of(&self, lid: u16) -> Option<u64>
        ensures { result ≡ guid_in self.now lid }
    {
        match lid {
            0 => None,
            1 => Some(self.manager),
            _ => self.others.get(usize::from(lid) - 2).copied(),
        }
    }
}
