//! The switches to which hosts are attached.

ghost use Rattle.std.specs.Prelude.{◌≡◌};
ghost use Rattle.fabric_parts.specs.Cable.{port};
ghost use Rattle.audit_plan.specs.Attached.{carries_host, leads_to_host};

use crate::links::Links;
use crate::plan::ports_at;
use fabric_parts::PortRef;

impl<'a> Links<'a> {
    fn leads_to_host(&self, at: PortRef) -> bool
        ensures { result ≡ leads_to_host self.now at }
    {
        match self.far_end(at) {
            Some(there) => self.plan().is_host(there.node),
            None => false,
        }
    }

    /// Whether a host is attached to the switch there.
    pub fn carries_host(&self, place: usize) -> bool
        ensures { result ≡ carries_host self.now place }
    {
        for number in 0..ports_at(self.plan().nodes(), place) {
            let at = PortRef {
                node: place,
                port: number + 1,
            };
            if self.leads_to_host(at) {
                return true;
            }
        }
        false
    }
}
