//! The SA of a subnet: its database, and the calls that answer MADs by it.

ghost use Rattle.std.specs.Prelude.{◌≡◌, true, false, length, IfOk, IsErr};
ghost use Rattle.subnet_model.specs.Configured.{IsConfigured};
ghost use Rattle.sa_model.specs.Receivers.{receivers_of};
ghost use Rattle.sa_replies.specs.State.{IsRememberedOf, at_start};
ghost use Rattle.sa_store.specs.NodePorts.{configured};

use partition_file::Members;
use sa_store::{NodePort, Store};
use std::alloc::{AllocError, Global};
use std::marker::Model;
use subnet_model::{Configuration, GroupReceiver};

/// The SA of a subnet.
///
/// Its value is the subnet's ports and partitions, the groups, services and RMPP transfers in progress, and whether memory was
/// ever refused while it answered.
#[derive(Drop)]
pub struct Registry {
    pub(crate) store: Store,
}

impl Model for Registry {
    ghost use Rattle.sa_store.specs.Registry.{RegistryState};

    ghost Value = { RegistryState };

    ghost view = { λ registry. registry.store };
}

impl Registry {
    /// The registry of a subnet before its first command: of these ports in order of LID, and the partitions and the keys
    /// of each of them that a partition file gives. It can only run out of memory.
    pub fn new(alloc: Global, ports: &[NodePort], members: &Members) -> Result<Registry, AllocError>
        requires each { length members.now.keys ≡ length ports.now }
        requires configured { IsConfigured (configured ports.now members.now) }
        ensures { IfOk result (λ registry. registry ≡ record {
          configuration = configured ports.now members.now;
          administration = at_start (configured ports.now members.now);
          is_broken = false;
        }) }
    {
        let store = Store::new(alloc, ports, members)?;
        Ok(Registry { store })
    }

    /// The same, of a subnet as it is configured. It can only run out of memory.
    pub fn of(alloc: Global, configuration: &Configuration) -> Result<Registry, AllocError>
        requires { IsConfigured configuration.now }
        ensures { IfOk result (λ registry. registry ≡ record {
          configuration = configuration.now;
          administration = at_start configuration.now;
          is_broken = false;
        }) }
    {
        let store = Store::of(alloc, configuration)?;
        Ok(Registry { store })
    }

    /// What holds of what is remembered at any time, whatever ports sent before.
    pub fn known_remembered(&self)
        ensures { IsRememberedOf self.now.configuration self.now.administration.remembered }
    {
        self.store.known();
    }

    /// An allocation failed while an answer was carried out: each later call fails.
    pub fn fail(&mut self)
        ensures { self.new ≡ record self.old { is_broken = true } }
    {
        self.store.fail();
    }

    /// Who receives what is sent to the multicast groups of the partition of this number: pairs of an MLID and the LID of a
    /// channel adapter's port, by MLID and then by LID. None for a number that no partition has.
    ///
    /// It can only run out of memory, and the registry stays as it is; one in which an allocation failed before refuses this too.
    ///
    /// Source: IBA volume 1, 15.2.5 (JoinState): ports that joined as SendOnlyNonMember receive nothing.
    pub fn receivers(&self, partition: u16) -> Result<Vec<GroupReceiver>, AllocError>
        ensures value { IfOk result (λ receivers. receivers.items
            ≡ receivers_of self.now.configuration.ports partition self.now.administration.remembered.partitions) }
        ensures broken { self.now.is_broken ≡ true → IsErr result }
    {
        self.store.receivers(partition)
    }
}
