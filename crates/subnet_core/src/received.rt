//! Who received when the MLID range of a partition was pushed last.

ghost use Rattle.std.specs.Prelude.{◌≡◌, []};

use std::alloc::Global;
use std::marker::Model;
use subnet_model::GroupReceiver;

/// Who received what is sent to the groups of a partition when its MLID range was pushed last.
#[derive(Drop)]
pub(crate) struct Received {
    receivers: Vec<GroupReceiver>,
}

impl Model for Received {
    ghost use Rattle.std.specs.Prelude.{List};
    ghost use Rattle.subnet_model.specs.declared.group_receiver.GroupReceiver.{GroupReceiver};

    ghost Value = { List GroupReceiver };

    ghost view = { λ received. received.receivers.items };
}

impl Received {
    /// These.
    pub(crate) fn of(receivers: Vec<GroupReceiver>) -> Received
        ensures { result ≡ receivers.items }
    {
        Received { receivers }
    }

    /// Nobody.
    pub(crate) fn nobody(alloc: Global) -> Received
        ensures { result ≡ [] }
    {
        Received {
            receivers: Vec::new(alloc),
        }
    }

    /// Who they are.
    pub(crate) fn receivers(&self) -> &[GroupReceiver]
        ensures { result.now ≡ self.now }
    {
        &self.receivers
    }
}
