//! Hops of packets.

ghost use Rattle.std.specs.Prelude.{◌≡◌};
ghost use Rattle.fabric_parts.specs.Cable.{port};
ghost use Rattle.audit_lanes.specs.Hops.{crossing, is_dropped, lacks_row, out_of};

use fabric_parts::PortRef;
use std::marker::Model;

/// A switch, the port by which packets come in, and the port by which they leave.
#[derive(Clone, Copy, Debug, PartialEq, Eq, Hash)]
pub(crate) struct Crossing {
    /// The place of the switch among the nodes.
    pub(crate) place: usize,
    /// The port by which they come in.
    pub(crate) input: u8,
    /// The port by which they leave.
    pub(crate) output: u8,
}

/// Two ports of a switch between which packets of an SL are dropped.
#[derive(Clone, Copy, Debug, PartialEq, Eq, Hash)]
pub(crate) struct DroppedAt {
    pub(crate) crossing: Crossing,
    pub(crate) sl: u8,
}

/// How packets of a path record cross a switch.
#[derive(Clone, Copy, Debug)]
pub(crate) struct Hop {
    /// The switch and its ports.
    pub(crate) crossing: Crossing,
    /// Their SL.
    pub(crate) sl: u8,
    /// Their VL behind the switch, if it is known.
    pub(crate) vl: Option<u8>,
}

/// A hop, and the port by which the packets come into the next switch, if they do.
#[derive(Clone, Copy)]
pub(crate) struct Step {
    pub(crate) hop: Hop,
    pub(crate) next: Option<PortRef>,
}

impl Crossing {
    pub(crate) fn of(at: PortRef, output: u8) -> Crossing
        ensures { result ≡ crossing at output }
    {
        Crossing {
            place: at.node,
            input: at.port,
            output,
        }
    }
}

impl Hop {
    /// The port by which the packets leave the switch.
    pub(crate) fn out(self) -> PortRef
        ensures { result ≡ out_of self }
    {
        PortRef {
            node: self.crossing.place,
            port: self.crossing.output,
        }
    }

    /// Whether no row says their VL.
    pub(crate) fn lacks_row(self) -> bool
        ensures { result ≡ lacks_row self }
    {
        self.vl.is_none()
    }

    /// Whether the switch drops them: VL 15 is for management packets alone.
    pub(crate) fn is_dropped(self) -> bool
        ensures { result ≡ is_dropped self }
    {
        match self.vl {
            Some(vl) => vl == 15,
            None => false,
        }
    }
}

/// The hops of packets of a path record, one behind the other.
#[derive(Drop)]
pub(crate) struct Trace {
    hops: Vec<Hop>,
}

impl Model for Trace {
    ghost use Rattle.std.specs.Prelude.{List};
    ghost use Rattle.audit_lanes.specs.declared.hop.Hop.{Hop};

    ghost Value = { List Hop };

    ghost view = { λ trace. trace.hops.items };
}

impl Trace {
    /// These hops.
    pub(crate) fn of(hops: Vec<Hop>) -> Trace
        ensures { result ≡ hops.items }
    {
        Trace { hops }
    }

    /// The hops.
    pub(crate) fn as_slice(&self) -> &[Hop]
        ensures { result.now ≡ self.now }
    {
        self.hops.as_slice()
    }
}
