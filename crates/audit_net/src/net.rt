//! A fabric with the tables that stand in it, for many look-ups.

ghost use Rattle.std.specs.Prelude.{◌≡◌, true, IfOk, IfSome};
ghost use Rattle.std.specs.Option.{option_copied};
ghost use Rattle.dump_file.specs.Sound.{is_rising};
ghost use Rattle.topo_file.specs.Connectivity.{switches};
ghost use Rattle.audit_net.specs.Following.{turn_by};
ghost use Rattle.audit_net.specs.Net.{entry, row_at, table_at};
ghost use Rattle.audit_net.specs.declared.entry.Entry.TheVariants.{Out};

use crate::entry::{Entry, EntryList, entry_at};
use crate::following::{Turn, TurnList, turn_known};
use crate::inputs::{Inputs, row_of};
use audit_plan::{Links, Plan, switches};
use dump_file::{Dump, Row, Table};
use std::alloc::{AllocError, Global};
use std::marker::Model;

/// A fabric and a dump, with entries, turns and the far ends of cables looked up by their numbers.
#[derive(Drop)]
pub struct Net<'a> {
    inputs: Inputs<'a>,
    // The places of all switches among the nodes.
    switch_places: Vec<usize>,
    // Of each node the entries by LID, up to the top of its table.
    entries: Vec<EntryList>,
    // Of each node what becomes of packets that leave it by these ports.
    turns: Vec<TurnList>,
}

impl<'a> Model for Net<'a> {
    ghost use Rattle.std.specs.Prelude.{◌≡◌};
    ghost use Rattle.topo_file.specs.Connectivity.{switches};
    ghost use Rattle.audit_net.specs.Lookup.{all_entries, all_turns};
    ghost use Rattle.audit_net.specs.Net.{NetState};

    ghost Value = { NetState };

    ghost view = { λ net. net.inputs };

    ghost invariant = { λ net. (net.switch_places.items ≡ switches net.inputs.plan.nodes) × (net.entries.items ≡ all_entries net.inputs)
        × (net.turns.items ≡ all_turns net.inputs) };
}

impl<'a> Net<'a> {
    /// A fabric and a dump. It can only run out of memory.
    pub fn new(alloc: Global, plan: &'a Plan, dump: &'a Dump) -> Result<Net<'a>, AllocError>
        ensures { IfOk result (λ net. net ≡ record { plan = plan.now; dump = dump.now }) }
    {
        let inputs = Inputs::new(alloc, plan, dump)?;
        let switch_places = switches(alloc, plan.nodes())?;
        let entries = inputs.all_entries(alloc)?;
        let turns = inputs.all_turns(alloc)?;
        Ok(Net {
            inputs,
            switch_places,
            entries,
            turns,
        })
    }

    /// The dump.
    pub fn dump(&self) -> &Dump
        ensures { result.now ≡ self.now.dump }
    {
        self.inputs.dump()
    }

    /// The plan.
    pub fn plan(&self) -> &Plan
        ensures { result.now ≡ self.now.plan }
    {
        self.inputs.plan()
    }

    /// The plan, with the far ends of its cables looked up in constant time.
    pub fn links(&self) -> &Links<'a>
        ensures { result.now ≡ self.now.plan }
    {
        self.inputs.links()
    }

    /// The places of its switches among the nodes.
    pub fn switches(&self) -> &[usize]
        ensures { result.now ≡ switches self.now.plan.nodes }
    {
        self.switch_places.as_slice()
    }

    /// The table of the node there, if there is one.
    pub fn table_at(&self, place: usize) -> Option<&Table>
        ensures value { option_copied result ≡ table_at self.now place }
        ensures rising { IfSome result (λ table. is_rising table.now ≡ true) }
    {
        self.inputs.table_at(place)
    }

    /// The row of a LID in the table of the switch there, if there is one.
    pub fn row_at(&self, lid: u16, place: usize) -> Option<&Row>
        ensures { option_copied result ≡ row_at self.now lid place }
    {
        let table = self.table_at(place)?;
        row_of(table.rows.as_slice(), lid, table.top)
    }

    fn known_entry(&self, lid: u16, place: usize) -> Option<Entry>
        ensures { IfSome result (λ known. known ≡ entry self.now lid place) }
    {
        entry_at(&self.entries, place, lid)
    }

    /// The entry of a LID in the table of the switch there.
    pub fn entry(&self, lid: u16, place: usize) -> Entry
        ensures { result ≡ entry self.now lid place }
    {
        match self.known_entry(lid, place) {
            Some(known) => known,
            None => self.inputs.entry(lid, place),
        }
    }

    fn known_turn(&self, place: usize, number: u8) -> Option<Turn>
        ensures { IfSome result (λ known. known ≡ turn_by self.now place (Out number)) }
    {
        turn_known(&self.turns, place, number)
    }

    /// What becomes of a packet that leaves the switch there by this port.
    pub fn turn_out(&self, place: usize, number: u8) -> Turn
        ensures { result ≡ turn_by self.now place (Out number) }
    {
        match self.known_turn(place, number) {
            Some(known) => known,
            None => self.inputs.turn_out(place, number),
        }
    }
}
