//! The switches that packets of hosts come to.

ghost use Rattle.std.specs.Prelude.{◌≡◌, ◌||◌, true, length, IfOk, ℕ};
ghost use Rattle.topo_file.specs.Node.{is_switch_at};
ghost use Rattle.topo_file.specs.Rounds.{is_marked};
ghost use Rattle.audit_net.specs.Hosts.{host_comes, hosts_come, hosts_marks};
ghost use Rattle.audit_plan.specs.Plan.{is_on};
ghost use Rattle.audit_net.specs.Ways.{way};

use crate::following::Turn;
use crate::marks::{blank, mark};
use crate::net::Net;
use std::alloc::{AllocError, Global};

impl<'a> Net<'a> {
    /// Marks the switches that packets to the LID come to from this one.
    fn mark_way(&self, marks: &mut [bool], lid: u16, from: usize)
        requires switch { is_switch_at self.now.plan.nodes from ≡ true }
        requires long { length marks.old ≡ length self.now.plan.nodes }
        ensures long { length marks.new ≡ length marks.old }
        ensures marked { (there : ℕ) → is_marked marks.new there ≡ (is_marked marks.old there || is_on there (way self.now lid from)) }
    {
        let mut at = from;
        for _ in 0..self.switches().len() {
            mark(marks, at);
            let Turn::Goes(next) = self.turn(lid, at) else {
                return;
            };
            at = next;
        }
    }

    /// Whether packets to the LID come there from this switch.
    fn is_on_way(&self, lid: u16, from: usize, there: usize) -> bool
        ensures { result ≡ is_on there (way self.now lid from) }
    {
        let mut at = from;
        for _ in 0..self.switches().len() {
            if at == there {
                return true;
            }
            let Turn::Goes(next) = self.turn(lid, at) else {
                return false;
            };
            at = next;
        }
        false
    }

    fn host_comes(&self, lid: u16, there: usize, from: usize) -> bool
        ensures { result ≡ host_comes self.now lid there from }
    {
        self.links().carries_host(from) && self.is_on_way(lid, from, there)
    }

    /// Whether packets to the LID come there from a switch to which a host is attached.
    pub fn hosts_come(&self, lid: u16, there: usize) -> bool
        ensures { result ≡ hosts_come self.now lid there }
    {
        self.switches()
            .iter()
            .any(|from| self.host_comes(lid, there, *from))
    }

    /// Marks for each node: set are those of the switches that packets to the LID come to from a switch to which a host is attached.
    pub fn hosts_marks(&self, alloc: Global, lid: u16) -> Result<Vec<bool>, AllocError>
        ensures { IfOk result (λ marks. marks.items ≡ hosts_marks self.now lid) }
    {
        let mut marks = blank(alloc, self.plan().nodes().len())?;
        for from in self.switches() {
            if self.links().carries_host(*from) {
                self.mark_way(&mut marks, lid, *from);
            }
        }
        Ok(marks)
    }
}
