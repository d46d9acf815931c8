//! The switches that a sweep has found.

ghost use Rattle.std.specs.Prelude.{◌≡◌, ◌==◌, [], ◌∷◌, ◌++◌, None, position, IfOk, OnOk};
ghost use Rattle.std.specs.List.{list_any};

use crate::graph::GraphSwitch;
use indexmap::IndexSet;
use std::alloc::{AllocError, Global};
use std::marker::Model;

/// Switches with different GUIDs, in the order in which they were found, and looked up by GUID in constant time.
#[derive(Debug, Drop)]
pub(crate) struct SwitchList {
    // The GUIDs again, each at the place of its switch.
    guids: IndexSet<u64>,
    switches: Vec<GraphSwitch>,
}

impl Model for SwitchList {
    ghost use Rattle.std.specs.Prelude.{◌≡◌, List, map};
    ghost use Rattle.sweep.specs.declared.graph.GraphSwitch.{GraphSwitch};

    ghost Value = { List GraphSwitch };

    ghost view = { λ list. list.switches.items };

    ghost invariant = { λ list. list.guids.keys ≡ map (λ switch. switch.guid) list.switches.items };
}

impl SwitchList {
    /// No switch.
    pub(crate) fn new(alloc: Global) -> SwitchList
        ensures { result ≡ [] }
    {
        SwitchList {
            guids: IndexSet::new(alloc),
            switches: Vec::new(alloc),
        }
    }

    /// The switches.
    pub(crate) fn as_slice(&self) -> &[GraphSwitch]
        ensures { result.now ≡ self.now }
    {
        self.switches.as_slice()
    }

    /// The place of the switch with this GUID, looked up in constant time.
    pub(crate) fn place_of(&self, guid: u64) -> Option<usize>
        ensures { result ≡ position (λ switch. switch.guid == guid) self.now }
    {
        self.guids.get_index_of(&guid)
    }

    /// The same switches again. It can only run out of memory.
    pub(crate) fn copied(&self, alloc: Global) -> Result<SwitchList, AllocError>
        ensures { IfOk result (λ list. list ≡ self.now) }
    {
        let guids = self.guids.clone()?;
        let switches = self
            .switches
            .iter()
            .map(|switch| switch.copied())
            .collect(alloc)?;
        Ok(SwitchList { guids, switches })
    }

    /// Whether some switch has this GUID.
    pub(crate) fn has(&self, guid: u64) -> bool
        ensures { result ≡ list_any (λ switch. switch.guid == guid) self.now }
    {
        self.guids.contains(&guid)
    }

    /// Adds a switch whose GUID is new. It can only run out of memory.
    pub(crate) fn push(&mut self, switch: GraphSwitch) -> Result<(), AllocError>
        requires new { position (λ known. known.guid == switch.guid) self.old ≡ None }
        ensures ok { OnOk result (self.new ≡ self.old ++ switch ∷ []) }
    {
        self.switches.reserve(1)?;
        self.guids.insert(switch.guid)?;
        self.switches.push(switch)?;
        Ok(())
    }
}
