//! How a fabric under subnet administration answers.

ghost use Rattle.std.specs.Prelude.{◌≡◌, true, false, IfErr, IfOk, OnErr, OnOk};
ghost use Rattle.fabric_wire.specs.Recabling.{cabling_of};
ghost use Rattle.sa_answer.specs.Answering.{Answers, answer_to_port};
ghost use Rattle.subnet_core.specs.Served.{Serves};
ghost use Rattle.subnet_core.specs.declared.administering.AnswerFault.{AnswerFault};
ghost use Rattle.topo_file.specs.Topology.{TopologyState};

use crate::administrator::Administrator;
use crate::mlid_ranges::push_ranges;
use fabric_wire::Fabric;
use mad_layout::Mad;
use std::alloc::AllocError;
use table_push::PushFault;
use thiserror::Error;
use updn_routes::Routes;

/// Why a MAD is not answered.
#[derive(Clone, Copy, Debug, PartialEq, Eq, Error)]
pub enum AnswerFault {
    /// Out of memory.
    #[error("out of memory")]
    NoMemory,
    /// A switch refused an MFT block. In a fabric that is served none does.
    #[error("a switch did not take its masks")]
    Push(PushFault),
}

impl From<AllocError> for AnswerFault {
    ghost use Rattle.std.specs.Prelude.{◌≡◌};
    ghost use Rattle.subnet_core.specs.declared.administering.AnswerFault.TheVariants.{NoMemory};

    ghost from_gives = { λ _ e. e ≡ NoMemory };

    fn from(_error: AllocError) -> AnswerFault {
        AnswerFault::NoMemory
    }
}

/// What subnet administration answers if the port of a GUID sends it these bytes; in the fabric the masks of all who
/// receive then stand. Of these only what changes is pushed.
///
/// It can only run out of memory. Then the fabric may have other masks, and the SA is broken for good.
pub fn answer(
    fabric: &mut Fabric,
    routes: &Routes,
    administrator: &mut Administrator,
    port: u64,
    payload: &[u8],
) -> Result<Vec<Mad>, AnswerFault>
    requires served { (plan : TopologyState) × Serves plan routes.now administrator.old fabric.old }
    requires whole { administrator.old.is_broken ≡ false }
    ensures answers { IfOk result (λ mads.
        Answers (answer_to_port administrator.old.configuration.ports port payload.now administrator.old.administration)
        mads.items administrator.old administrator.new) }
    ensures serves { OnOk result ((plan : TopologyState) → Serves plan routes.now administrator.old fabric.old
        → Serves plan routes.now administrator.new fabric.new) }
    ensures cabling { OnOk result (cabling_of fabric.new ≡ cabling_of fabric.old) }
    ensures no_push { IfErr result (λ fault. fault ≡ AnswerFault.NoMemory) }
    ensures broken { OnErr result (administrator.new.is_broken ≡ true) }
    ensures configuration { administrator.new.configuration ≡ administrator.old.configuration }
{
    // What is remembered is sound before and after, so each MLID range is that of its own partition, and numbers are few.
    administrator.registry.known_remembered();
    let reaction = administrator.registry.handle(port, payload)?;
    administrator.registry.known_remembered();
    match push_ranges(
        fabric,
        routes,
        &administrator.registry,
        &mut administrator.received,
        reaction.changed.as_slice(),
    ) {
        Ok(()) => Ok(reaction.replies),
        Err(fault) => {
            administrator.registry.fail();
            Err(fault)
        }
    }
}
