//! The lines of ports, and the GUIDs that they report.

ghost use Rattle.std.specs.Prelude.{◌≡◌, [], ◌∷◌, ◌++◌, false, None, option_to_list, OnErr, OnOk};
ghost use Rattle.std.specs.Option.{option_copied};
ghost use Rattle.netdiscover_file.specs.Port.{is_same_far_end, is_same_guid, is_reported, is_reported_already, is_said_already, line_of, place_of_line, says_same};

use crate::ends::FarEnd;
use fabric_parts::PortRef;
use indexmap::IndexSet;
use std::alloc::{AllocError, Global};
use std::marker::Model;

/// One end of a cable, as the line of its port reports it.
#[derive(Clone, Copy, Debug, PartialEq, Eq)]
pub struct PortLine {
    /// The port, by the place of its node among the nodes.
    pub port: PortRef,
    /// The GUID of the port; none at a switch.
    pub guid: Option<u64>,
    /// The LID of the port; none at a switch.
    pub lid: Option<u16>,
    /// The port at the other end.
    pub far: FarEnd,
    /// The line.
    pub line: usize,
}

/// Lines of different ports, in the order in which they were added, and found by their ports in
/// constant time.
#[derive(Debug, Drop)]
pub(crate) struct PortList {
    // The ports again, each at the place of its line.
    ports: IndexSet<PortRef>,
    lines: Vec<PortLine>,
}

impl Model for PortList {
    ghost use Rattle.std.specs.Prelude.{◌≡◌, List, map};
    ghost use Rattle.netdiscover_file.specs.declared.port.PortLine.{PortLine};

    ghost Value = { List PortLine };

    ghost view = { λ list. list.lines.items };

    ghost invariant = { λ list. list.ports.keys ≡ map (λ line. line.port) list.lines.items };
}

impl PortList {
    pub(crate) fn new(alloc: Global) -> PortList
        ensures { result ≡ [] }
    {
        PortList {
            ports: IndexSet::new(alloc),
            lines: Vec::new(alloc),
        }
    }

    pub(crate) fn as_slice(&self) -> &[PortLine]
        ensures { result.now ≡ self.now }
    {
        self.lines.as_slice()
    }

    /// Where the line of this port stands, looked up in constant time.
    pub(crate) fn place_of_line(&self, port: PortRef) -> Option<usize>
        ensures { result ≡ place_of_line port self.now }
    {
        self.ports.get_index_of(&port)
    }

    /// The line of this port, if it has one.
    pub(crate) fn line_of(&self, port: PortRef) -> Option<&PortLine>
        ensures { option_copied result ≡ line_of port self.now }
    {
        match self.place_of_line(port) {
            Some(place) => self.as_slice().get(place),
            None => None,
        }
    }

    /// Whether the line of this port says the same.
    pub(crate) fn is_said_already(&self, line: PortLine) -> bool
        ensures { result ≡ is_said_already line self.now }
    {
        match self.line_of(line.port) {
            Some(other) => says_same(*other, line),
            None => false,
        }
    }

    /// Adds a line at the end. It can only run out of memory, and then the list stays as it was.
    pub(crate) fn push(&mut self, line: PortLine) -> Result<(), AllocError>
        requires new { place_of_line line.port self.old ≡ None }
        ensures ok { OnOk result (self.new ≡ self.old ++ line ∷ []) }
        ensures err { OnErr result (self.new ≡ self.old) }
    {
        self.lines.reserve(1)?;
        self.ports.insert(line.port)?;
        self.lines.push(line)?;
        Ok(())
    }
}

/// Different GUIDs, in the order in which they were reported.
#[derive(Drop)]
pub(crate) struct GuidList {
    guids: IndexSet<u64>,
}

impl Model for GuidList {
    ghost use Rattle.std.specs.Prelude.{ℕ, List};

    ghost Value = { List ℕ };

    ghost view = { λ list. list.guids.keys };
}

impl GuidList {
    pub(crate) fn new(alloc: Global) -> GuidList
        ensures { result ≡ [] }
    {
        GuidList {
            guids: IndexSet::new(alloc),
        }
    }

    /// Whether the GUID is one of these, looked up in constant time.
    fn is_reported(&self, guid: u64) -> bool
        ensures { result ≡ is_reported guid self.now }
    {
        self.guids.contains(&guid)
    }

    /// Whether it is one of these, if there is one.
    pub(crate) fn is_reported_already(&self, guid: Option<u64>) -> bool
        ensures { result ≡ is_reported_already guid self.now }
    {
        match guid {
            Some(guid) => self.is_reported(guid),
            None => false,
        }
    }

    fn insert(&mut self, guid: u64) -> Result<(), AllocError>
        requires new { is_reported guid self.old ≡ false }
        ensures ok { OnOk result (self.new ≡ self.old ++ guid ∷ []) }
        ensures err { OnErr result (self.new ≡ self.old) }
    {
        self.guids.insert(guid)?;
        Ok(())
    }

    /// Adds a GUID, if there is one. It can only run out of memory, and then the list stays as it was.
    pub(crate) fn push(&mut self, guid: Option<u64>) -> Result<(), AllocError>
        requires new { is_reported_already guid self.old ≡ false }
        ensures ok { OnOk result (self.new ≡ self.old ++ option_to_list guid) }
        ensures err { OnErr result (self.new ≡ self.old) }
    {
        if let Some(guid) = guid {
            self.insert(guid)?;
        }
        Ok(())
    }
}

/// Whether both are the same LID, or both are none.
pub(crate) fn is_same_lid(a: Option<u16>, b: Option<u16>) -> bool
    ensures { result ≡ is_same_guid a b }
{
    match (a, b) {
        (Some(a), Some(b)) => a == b,
        (None, None) => true,
        _ => false,
    }
}

/// Whether both ends are the same.
fn is_same_far_end(a: FarEnd, b: FarEnd) -> bool
    ensures { result ≡ is_same_far_end a b }
{
    a.node.is_same(b.node) && (a.port == b.port && is_same_guid(a.guid, b.guid))
}

/// Whether both lines say the same of one port.
fn says_same(a: PortLine, b: PortLine) -> bool
    ensures { result ≡ says_same a b }
{
    is_same_guid(a.guid, b.guid) && (is_same_lid(a.lid, b.lid) && is_same_far_end(a.far, b.far))
}

/// Whether both are the same GUID, or both are none.
pub(crate) fn is_same_guid(a: Option<u64>, b: Option<u64>) -> bool
    ensures { result ≡ is_same_guid a b }
{
    match (a, b) {
        (Some(a), Some(b)) => a == b,
        (None, None) => true,
        _ => false,
    }
}
