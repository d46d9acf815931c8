//! What comes of a packet to a LID, by the entries that stand in the tables.

ghost use Rattle.std.specs.Prelude.{◌≡◌, is_some, option_map, IfOk};
ghost use Rattle.audit_net.specs.Following.{end_from, fate, fate_by, loop_from, turn, turn_by, turn_to};
ghost use Rattle.audit_net.specs.Lookup.{all_turns, turn_known, turns_at, turns_of};
ghost use Rattle.audit_net.specs.declared.entry.Entry.TheVariants.{Out};

use crate::entry::Entry;
use crate::inputs::Inputs;
use crate::net::Net;
use audit_plan::ports_at;
use fabric_parts::PortRef;
use std::alloc::{AllocError, Global};
use std::marker::Model;

/// What a switch does with a packet.
#[derive(Clone, Copy)]
pub enum Turn {
    /// It goes on at the switch there.
    Goes(usize),
    /// It has come to this end port.
    Arrives(PortRef),
    /// There is no entry.
    Hole,
    /// The entry is this port, which has no cable.
    Nowhere(u8),
    /// The entry is not reported.
    Unknown,
}

/// What comes of packets from a switch to a LID.
#[derive(Clone, Copy)]
pub enum Fate {
    /// They come to the end port that has the LID.
    Reached,
    /// A switch has no entry.
    Hole,
    /// A switch sends them out of a port without a cable.
    Nowhere,
    /// They come to another end port.
    Wrong,
    /// They never end.
    Loop,
    /// They come to a switch of which the entry is not reported.
    Unknown,
}

/// What a node does with packets that it sends out of its ports, from port 1 on.
#[derive(Drop)]
pub(crate) struct TurnList {
    turns: Vec<Turn>,
}

impl Model for TurnList {
    ghost use Rattle.std.specs.Prelude.{List};
    ghost use Rattle.audit_net.specs.declared.following.Turn.{Turn};

    ghost Value = { List Turn };

    ghost view = { λ list. list.turns.items };
}

impl TurnList {
    fn of(turns: Vec<Turn>) -> TurnList
        ensures { result ≡ turns.items }
    {
        TurnList { turns }
    }

    fn as_slice(&self) -> &[Turn]
        ensures { result.now ≡ self.now }
    {
        self.turns.as_slice()
    }
}

fn turns_of(all: &[TurnList], place: usize) -> &[Turn]
    ensures { result.now ≡ turns_of all.now place }
{
    match all.get(place) {
        Some(turns) => turns.as_slice(),
        None => &[],
    }
}

/// What becomes of a packet that leaves the node there by this port, if the port is among these.
pub(crate) fn turn_known(all: &[TurnList], place: usize, number: u8) -> Option<Turn>
    ensures { result ≡ turn_known all.now place number }
{
    if number == 0 {
        return None;
    }
    turns_of(all, place).get(usize::from(number - 1)).copied()
}

impl<'a> Inputs<'a> {
    fn turn_to(&self, number: u8, there: Option<PortRef>) -> Turn
        ensures { result ≡ turn_to self.now number there }
    {
        match there {
            Some(there) if self.plan().is_switch_at(there.node) => Turn::Goes(there.node),
            Some(there) => Turn::Arrives(there),
            None => Turn::Nowhere(number),
        }
    }

    /// What becomes of a packet that leaves the switch there by this port.
    pub(crate) fn turn_out(&self, place: usize, number: u8) -> Turn
        ensures { result ≡ turn_by self.now place (Out number) }
    {
        let out = PortRef {
            node: place,
            port: number,
        };
        if number == 0 {
            Turn::Arrives(out)
        } else {
            self.turn_to(number, self.links().far_end(out))
        }
    }

    fn turns_at(&self, alloc: Global, place: usize) -> Result<Vec<Turn>, AllocError>
        ensures { IfOk result (λ turns. turns.items ≡ turns_at self.now place) }
    {
        let mut turns = Vec::new(alloc);
        for number in 0..ports_at(self.plan().nodes(), place) {
            turns.push(self.turn_out(place, number + 1))?;
        }
        Ok(turns)
    }

    /// What each node does with packets that it sends out of its ports.
    pub(crate) fn all_turns(&self, alloc: Global) -> Result<Vec<TurnList>, AllocError>
        ensures { IfOk result (λ all. all.items ≡ all_turns self.now) }
    {
        let mut all = Vec::new(alloc);
        for place in 0..self.plan().nodes().len() {
            let turns = self.turns_at(alloc, place)?;
            all.push(TurnList::of(turns))?;
        }
        Ok(all)
    }
}

impl<'a> Net<'a> {
    /// What the switch there does with a packet to the LID.
    pub fn turn(&self, lid: u16, place: usize) -> Turn
        ensures { result ≡ turn self.now lid place }
    {
        match self.entry(lid, place) {
            Entry::Unreported => Turn::Unknown,
            Entry::Missing => Turn::Hole,
            Entry::Out(number) => self.turn_out(place, number),
        }
    }

    /// The turn that ends what goes from the switch there to the LID; none if it never ends.
    fn end_from(&self, lid: u16, place: usize) -> Option<Turn>
        ensures { result ≡ end_from self.now lid place }
    {
        let mut at = place;
        for _ in 0..self.switches().len() {
            match self.turn(lid, at) {
                Turn::Goes(next) => at = next,
                end => return Some(end),
            }
        }
        None
    }

    /// What comes of packets from the switch there to the LID, which this end port has.
    pub fn fate(&self, lid: u16, end: PortRef, place: usize) -> Fate
        ensures { result ≡ fate self.now lid end place }
    {
        fate_by(end, self.end_from(lid, place))
    }

    /// Whether packets from the switch there to the LID come back to it.
    fn comes_back(&self, lid: u16, home: usize) -> bool
        ensures { result ≡ is_some (loop_from self.now lid home) }
    {
        let Turn::Goes(first) = self.turn(lid, home) else {
            return false;
        };
        let mut at = first;
        for _ in 0..self.switches().len() {
            if at == home {
                return true;
            }
            let Turn::Goes(next) = self.turn(lid, at) else {
                return false;
            };
            at = next;
        }
        false
    }

    /// The switches of the loop through the one there, from it on, if it is on a loop of the LID.
    pub fn loop_from(
        &self,
        alloc: Global,
        lid: u16,
        home: usize,
    ) -> Result<Option<Vec<usize>>, AllocError>
        ensures { IfOk result (λ found. option_map (λ places. places.items) found ≡ loop_from self.now lid home) }
    {
        if !self.comes_back(lid, home) {
            return Ok(None);
        }
        let mut places = Vec::new(alloc);
        let Turn::Goes(first) = self.turn(lid, home) else {
            return Ok(None);
        };
        places.push(home)?;
        let mut at = first;
        for _ in 0..self.switches().len() {
            if at == home {
                return Ok(Some(places));
            }
            let Turn::Goes(next) = self.turn(lid, at) else {
                return Ok(None);
            };
            places.push(at)?;
            at = next;
        }
        Ok(None)
    }
}

fn fate_by(end: PortRef, turn: Option<Turn>) -> Fate
    ensures { result ≡ fate_by end turn }
{
    match turn {
        None | Some(Turn::Goes(_)) => Fate::Loop,
        Some(Turn::Arrives(there)) if there == end => Fate::Reached,
        Some(Turn::Arrives(_)) => Fate::Wrong,
        Some(Turn::Hole) => Fate::Hole,
        Some(Turn::Nowhere(_)) => Fate::Nowhere,
        Some(Turn::Unknown) => Fate::Unknown,
    }
}
