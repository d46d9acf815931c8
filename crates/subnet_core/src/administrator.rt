//! Subnet administration over a fabric.

ghost use Rattle.std.specs.Prelude.{◌≡◌, [], false, length, All, IfOk};
ghost use Rattle.pkey_rules.specs.declared.key_table.TheConstants.{PARTITIONS};
ghost use Rattle.subnet_model.specs.Configured.{IsConfigured};
ghost use Rattle.sa_replies.specs.State.{at_start};

use crate::received::Received;
use pkey_rules::PARTITIONS;
use sa_answer::Registry;
use std::alloc::{AllocError, Global};
use std::marker::Model;
use subnet_model::Configuration;

/// The SA over a fabric: its database, and who received in the MLID range of each partition when its MFT entries were set last, so
/// that if that changes, only the blocks that differ are set. Its value is the database's. Once an allocation failed both are
/// broken; else it is kept for each partition who receives in it.
#[derive(Drop)]
pub struct Administrator {
    pub(crate) registry: Registry,
    /// By the number of the partition.
    pub(crate) received: Vec<Received>,
}

impl Model for Administrator {
    ghost use Rattle.std.specs.Prelude.{◌≡◌, false};
    ghost use Rattle.sa_store.specs.Registry.{RegistryState};
    ghost use Rattle.subnet_core.specs.Served.{IsInformed};

    ghost Value = { RegistryState };

    ghost view = { λ administrator. administrator.registry };

    ghost invariant = { λ administrator.
        administrator.registry.is_broken ≡ false → IsInformed administrator.registry administrator.received.items };
}

impl Administrator {
    /// Subnet administration of a subnet as it is configured, before its first command. It can only run out of memory.
    pub fn of(alloc: Global, configuration: &Configuration) -> Result<Administrator, AllocError>
        requires { IsConfigured configuration.now }
        ensures { IfOk result (λ administrator. administrator ≡ record {
          configuration = configuration.now;
          administration = at_start configuration.now;
          is_broken = false;
        }) }
    {
        let registry = Registry::of(alloc, configuration)?;
        let received = nobody_anywhere(alloc)?;
        Ok(Administrator { registry, received })
    }
}

/// Nobody, for each partition.
fn nobody_anywhere(alloc: Global) -> Result<Vec<Received>, AllocError>
    ensures nobody { IfOk result (λ received. All (λ receivers. receivers ≡ []) received.items) }
    ensures whole { IfOk result (λ received. length received.items ≡ PARTITIONS) }
{
    let mut received = Vec::new(alloc);
    for _number in 0..PARTITIONS {
        received.push(Received::nobody(alloc))?;
    }
    Ok(received)
}
