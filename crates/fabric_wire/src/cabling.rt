//! The cables of a fabric, some of which may be cut, with the other end of the cable at a port looked up in a row.

ghost use Rattle.std.specs.Prelude.{◌≡◌, ◌+◌, ◌*◌, ◌<◌, if◌then◌else◌, true, [], ◌∷◌, ◌++◌, length, drop, take, get_or, flat_map, IfOk};
ghost use Rattle.std.specs.List.{list_all, list_any, position, remove};
ghost use Rattle.fabric_parts.specs.declared.cable.Cable.{Cable};
ghost use Rattle.fabric_parts.specs.Cable.{far_end};
ghost use Rattle.fabric_parts.specs.declared.cable.PortRef.{PortRef};
ghost use Rattle.smp_wire.specs.Good.{ends_of};
ghost use Rattle.fabric_wire.specs.Cabling.{IsOnce, cable_cut, cable_mended, has_place, is_between, uncut};
ghost use Rattle.fabric_wire.specs.Rows.{far_in};

use crate::rows::Rows;
use fabric_parts::{Cable, PortRef};
use std::alloc::{AllocError, Global};
use std::marker::Model;

/// The cables of a fabric. Those that are cut stand behind the others, so that one is cut or mended in place.
#[derive(Debug, Drop)]
pub(crate) struct Cabling {
    all: Vec<Cable>,
    count: usize,
    far_ends: Rows,
}

impl Model for Cabling {
    ghost use Rattle.std.specs.Prelude.{drop, take};
    ghost use Rattle.fabric_wire.specs.Cabling.{CablingState, IsLookedUp};

    ghost Value = { CablingState };

    ghost view = { λ cabling. record { cables = take cabling.count cabling.all.items; cut = drop cabling.count cabling.all.items } };

    ghost invariant = { λ cabling. IsLookedUp cabling.count cabling.all.items cabling.far_ends };
}

impl Cabling {
    /// These cables, none of which is cut. It can only run out of memory.
    pub(crate) fn new(alloc: Global, cables: &[Cable]) -> Result<Cabling, AllocError>
        ensures { IfOk result (λ cabling. cabling ≡ uncut cables.now) }
    {
        Ok(Cabling {
            all: Vec::from_slice(alloc, cables)?,
            count: cables.len(),
            far_ends: far_ends(alloc, cables)?,
        })
    }

    /// The other end of the cable at a port, if it has one that is not cut.
    pub(crate) fn far_end(&self, here: PortRef) -> Option<PortRef>
        ensures { result ≡ far_end self.now.cables here }
    {
        self.far_ends.get(here)
    }

    /// How many ends the cables have that are not cut.
    pub(crate) fn count_ends(&self) -> usize
        ensures { result ≡ 2 * length self.now.cables }
    {
        2 * self.count
    }

    /// Whether there is a cable between these ports that can be mended, or cut.
    pub(crate) fn has(&self, a: PortRef, b: PortRef, up: bool) -> bool
        ensures { result ≡ list_any (is_between a b) (if up then self.now.cut else self.now.cables) }
    {
        if up {
            has_between(&self.all[self.count..], a, b)
        } else {
            has_between(&self.all[..self.count], a, b)
        }
    }

    /// Cuts the cable between these ports. If there is none that is not cut, nothing changes.
    pub(crate) fn cut(&mut self, a: PortRef, b: PortRef)
        requires { IsOnce self.old }
        ensures { self.new ≡ cable_cut a b self.old }
    {
        if let Some(place) = place_between(&self.all[..self.count], a, b) {
            let cable = self.all[place];
            put_last(&mut self.all, place);
            self.count -= 1;
            self.far_ends.set(cable.first, None);
            self.far_ends.set(cable.second, None);
        }
    }

    /// Mends the cable between these ports. If there is none that is cut, nothing changes.
    pub(crate) fn mend(&mut self, a: PortRef, b: PortRef)
        requires { IsOnce self.old }
        ensures { self.new ≡ cable_mended a b self.old }
    {
        if let Some(place) = place_between(&self.all[self.count..], a, b) {
            let cable = self.all[self.count + place];
            put_before(&mut self.all, self.count, place);
            self.count += 1;
            self.far_ends.set(cable.first, Some(cable.second));
            self.far_ends.set(cable.second, Some(cable.first));
        }
    }
}

/// Puts the cable there behind all others.
fn put_last(cables: &mut Vec<Cable>, place: usize)
    requires { place < length cables.old.items }
    ensures { (none : Cable) → cables.new.items ≡ remove cables.old.items place ++ get_or cables.old.items place none ∷ [] }
{
    cables[place..].rotate_left(1);
}

/// Puts the cable that stands `place` behind the first `count` right behind these.
fn put_before(cables: &mut Vec<Cable>, count: usize, place: usize)
    requires { count + place < length cables.old.items }
    ensures { (none : Cable) → cables.new.items ≡ take count cables.old.items
        ++ get_or cables.old.items (count + place) none ∷ remove (drop count cables.old.items) place }
{
    cables[count..count + place + 1].rotate_right(1);
}

/// The place of the first cable between these ports.
fn place_between(cables: &[Cable], a: PortRef, b: PortRef) -> Option<usize>
    ensures { result ≡ position (is_between a b) cables.now }
{
    cables.iter().position(|cable| is_between(cable, a, b))
}

/// Whether one of these cables is between these ports.
fn has_between(cables: &[Cable], a: PortRef, b: PortRef) -> bool
    ensures { result ≡ list_any (is_between a b) cables.now }
{
    cables.iter().any(|cable| is_between(cable, a, b))
}

fn is_between(cable: &Cable, a: PortRef, b: PortRef) -> bool
    ensures { result ≡ is_between a b cable.now }
{
    (cable.first == a && cable.second == b) || (cable.first == b && cable.second == a)
}

/// For each port with a cable the port at the other end. Later cables come first, so that of two at
/// one port the first counts.
fn far_ends(alloc: Global, cables: &[Cable]) -> Result<Rows, AllocError>
    ensures far { IfOk result (λ far_ends. (port : PortRef) → far_in far_ends port ≡ far_end cables.now port) }
    ensures places { IfOk result (λ far_ends. list_all (has_place far_ends) (flat_map ends_of cables.now) ≡ true) }
{
    let mut far_ends = Rows::new(alloc);
    for index in (0..cables.len()).rev() {
        let cable = cables[index];
        far_ends.put(cable.second, cable.first)?;
        far_ends.put(cable.first, cable.second)?;
    }
    Ok(far_ends)
}
