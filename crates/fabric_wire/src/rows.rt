//! What is reported of ports, in a row for each node and a place in it for each port.

ghost use Rattle.std.specs.Prelude.{◌≡◌, ◌==◌, ◌<◌, ◌≤◌, true, [], cond, length, Some, OnOk, ℕ};
ghost use Rattle.fabric_parts.specs.declared.cable.PortRef.{PortRef};
ghost use Rattle.fabric_parts.specs.Cable.{is_same_port};
ghost use Rattle.fabric_wire.specs.Cabling.{has_place};
ghost use Rattle.fabric_wire.specs.Rows.{far_in, far_in_row};

use fabric_parts::PortRef;
use std::alloc::{AllocError, Global};
use std::marker::Model;

/// The far ends of the ports of one node, by their numbers.
#[derive(Debug, Drop)]
struct FarEnds {
    far_ends: Vec<Option<PortRef>>,
}

impl Model for FarEnds {
    ghost use Rattle.std.specs.Prelude.{List, Option};
    ghost use Rattle.fabric_parts.specs.declared.cable.PortRef.{PortRef};

    ghost Value = { List (Option PortRef) };

    ghost view = { λ row. row.far_ends.items };
}

impl FarEnds {
    fn get(&self, number: u8) -> Option<PortRef>
        ensures { result ≡ far_in_row self.now number }
    {
        match self.far_ends.get(usize::from(number)) {
            Some(far) => *far,
            None => None,
        }
    }

    fn put(&mut self, number: u8, far: PortRef) -> Result<(), AllocError>
        ensures far { OnOk result ((k : ℕ) → far_in_row self.new k ≡ cond (number == k) (Some far) (far_in_row self.old k)) }
        ensures here { OnOk result (number < length self.new) }
        ensures long { OnOk result (length self.old ≤ length self.new) }
    {
        self.grow(number)?;
        self.set(number, Some(far));
        Ok(())
    }

    fn set(&mut self, number: u8, far: Option<PortRef>)
        requires { number < length self.old }
        ensures far { (k : ℕ) → far_in_row self.new k ≡ cond (number == k) far (far_in_row self.old k) }
        ensures long { length self.new ≡ length self.old }
    {
        self.far_ends[usize::from(number)] = far;
    }

    /// Makes a place for the port of that number.
    fn grow(&mut self, number: u8) -> Result<(), AllocError>
        ensures here { OnOk result (number < length self.new) }
        ensures long { OnOk result (length self.old ≤ length self.new) }
        ensures same { OnOk result ((k : ℕ) → far_in_row self.new k ≡ far_in_row self.old k) }
    {
        while self.far_ends.len() <= usize::from(number) {
            self.far_ends.push(None)?;
        }
        Ok(())
    }
}

/// The far ends of ports, by the places of their nodes.
#[derive(Debug, Drop)]
pub(crate) struct Rows {
    alloc: Global,
    rows: Vec<FarEnds>,
}

impl Model for Rows {
    ghost use Rattle.std.specs.Prelude.{List, Option};
    ghost use Rattle.fabric_parts.specs.declared.cable.PortRef.{PortRef};

    ghost Value = { List (List (Option PortRef)) };

    ghost view = { λ rows. rows.rows.items };
}

impl Rows {
    /// No far ends.
    pub(crate) fn new(alloc: Global) -> Rows
        ensures { result ≡ [] }
    {
        Rows {
            alloc,
            rows: Vec::new(alloc),
        }
    }

    /// The far end of a port.
    pub(crate) fn get(&self, here: PortRef) -> Option<PortRef>
        ensures { result ≡ far_in self.now here }
    {
        match self.rows.get(here.node) {
            Some(row) => row.get(here.port),
            None => None,
        }
    }

    /// Notes the far end of a port. It can only run out of memory.
    pub(crate) fn put(&mut self, here: PortRef, far: PortRef) -> Result<(), AllocError>
        ensures far { OnOk result ((port : PortRef) → far_in self.new port ≡ cond (is_same_port here port) (Some far) (far_in self.old port)) }
        ensures here { OnOk result (has_place self.new here ≡ true) }
        ensures places { OnOk result ((port : PortRef) → has_place self.old port ≡ true → has_place self.new port ≡ true) }
    {
        self.grow(here.node)?;
        self.rows[here.node].put(here.port, far)
    }

    /// Writes the far end of a port that has a place already, or that it has none.
    pub(crate) fn set(&mut self, here: PortRef, far: Option<PortRef>)
        requires { has_place self.old here ≡ true }
        ensures far { (port : PortRef) → far_in self.new port ≡ cond (is_same_port here port) far (far_in self.old port) }
        ensures places { (port : PortRef) → has_place self.new port ≡ has_place self.old port }
    {
        self.rows[here.node].set(here.port, far);
    }

    /// Makes a row for the node there.
    fn grow(&mut self, node: usize) -> Result<(), AllocError>
        ensures long { OnOk result (node < length self.new) }
        ensures same { OnOk result ((port : PortRef) → far_in self.new port ≡ far_in self.old port) }
        ensures places { OnOk result ((port : PortRef) → has_place self.new port ≡ has_place self.old port) }
    {
        while self.rows.len() <= node {
            self.rows.push(FarEnds {
                far_ends: Vec::new(self.alloc),
            })?;
        }
        Ok(())
    }
}
