//! A plan, and the far ends of its cables.

ghost use Rattle.std.specs.Prelude.{◌≡◌, ◌+◌, ◌<◌, IfOk, IfSome};
ghost use Rattle.fabric_parts.specs.Cable.{far_end, port};
ghost use Rattle.audit_plan.specs.FarEnds.{all_ends, ends_at};

use crate::far_ends::{EndList, end_at, far_ends};
use crate::plan::{Plan, ports_at};
use fabric_parts::PortRef;
use indexmap::IndexMap;
use std::alloc::{AllocError, Global};
use std::marker::Model;

/// A plan, with the far ends of its cables found by port.
#[derive(Drop)]
struct FarEnds<'a> {
    plan: &'a Plan,
    by_port: IndexMap<PortRef, PortRef>,
}

impl<'a> Model for FarEnds<'a> {
    ghost use Rattle.audit_plan.specs.FarEnds.{KnowsFarEnds};
    ghost use Rattle.audit_plan.specs.Plan.{PlanState};

    ghost Value = { PlanState };

    ghost view = { λ far. far.plan.now };

    ghost invariant = { λ far. KnowsFarEnds far.by_port far.plan.now.cables };
}

impl<'a> FarEnds<'a> {
    fn of(alloc: Global, plan: &'a Plan) -> Result<FarEnds<'a>, AllocError>
        ensures { IfOk result (λ far. far ≡ plan.now) }
    {
        let by_port = far_ends(alloc, plan.cables())?;
        Ok(FarEnds { plan, by_port })
    }

    fn plan(&self) -> &Plan
        ensures { result.now ≡ self.now }
    {
        self.plan
    }

    fn far_end(&self, here: PortRef) -> Option<PortRef>
        ensures { result ≡ far_end self.now.cables here }
    {
        self.by_port.get(&here).copied()
    }

    /// The far end of the port behind this number.
    fn end_behind(&self, place: usize, before: u8) -> Option<PortRef>
        requires { before < 255 }
        ensures { result ≡ far_end self.now.cables (port place (before + 1)) }
    {
        self.far_end(PortRef {
            node: place,
            port: before + 1,
        })
    }

    /// The far ends of the ports of the node there, from port 1 on.
    fn ends_at(&self, alloc: Global, place: usize) -> Result<Vec<Option<PortRef>>, AllocError>
        ensures { IfOk result (λ ends. ends.items ≡ ends_at self.now place) }
    {
        let mut ends = Vec::new(alloc);
        for number in 0..ports_at(self.plan.nodes(), place) {
            ends.push(self.end_behind(place, number))?;
        }
        Ok(ends)
    }

    /// The same of all nodes.
    fn all_ends(&self, alloc: Global) -> Result<Vec<EndList>, AllocError>
        ensures { IfOk result (λ all. all.items ≡ all_ends self.now) }
    {
        let mut all = Vec::new(alloc);
        for place in 0..self.plan.nodes().len() {
            let ends = self.ends_at(alloc, place)?;
            all.push(EndList::of(ends))?;
        }
        Ok(all)
    }
}

/// A plan, with the far ends of its cables looked up in constant time, mostly by the place of the node and the number of its port.
#[derive(Drop)]
pub struct Links<'a> {
    far_ends: FarEnds<'a>,
    // Of each node the far ends of its ports, from port 1 on.
    ends: Vec<EndList>,
}

impl<'a> Model for Links<'a> {
    ghost use Rattle.std.specs.Prelude.{◌≡◌};
    ghost use Rattle.audit_plan.specs.FarEnds.{all_ends};
    ghost use Rattle.audit_plan.specs.Plan.{PlanState};

    ghost Value = { PlanState };

    ghost view = { λ links. links.far_ends };

    ghost invariant = { λ links. links.ends.items ≡ all_ends links.far_ends };
}

impl<'a> Links<'a> {
    /// The links of a plan. It can only run out of memory.
    pub fn of(alloc: Global, plan: &'a Plan) -> Result<Links<'a>, AllocError>
        ensures { IfOk result (λ links. links ≡ plan.now) }
    {
        let far_ends = FarEnds::of(alloc, plan)?;
        let ends = far_ends.all_ends(alloc)?;
        Ok(Links { far_ends, ends })
    }

    /// The plan.
    pub fn plan(&self) -> &Plan
        ensures { result.now ≡ self.now }
    {
        self.far_ends.plan()
    }

    fn known_end(&self, here: PortRef) -> Option<Option<PortRef>>
        ensures { IfSome result (λ there. there ≡ far_end self.now.cables here) }
    {
        end_at(&self.ends, here)
    }

    /// The port at the other end of its cable.
    pub fn far_end(&self, here: PortRef) -> Option<PortRef>
        ensures { result ≡ far_end self.now.cables here }
    {
        match self.known_end(here) {
            Some(there) => there,
            None => self.far_ends.far_end(here),
        }
    }
}
