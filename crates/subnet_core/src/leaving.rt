//! What a script leaves of a subnet.

ghost use Rattle.std.specs.Prelude.{◌≡◌, Some, IfErr, IfOk};
ghost use Rattle.std.specs.Option.{option_copied};
ghost use Rattle.step_results.specs.Gives.{Fails};
ghost use Rattle.script_lines.specs.Script.{commands_in};
ghost use Rattle.subnet_core.specs.After.{IsLeft, IsLeftBy};
ghost use Rattle.subnet_core.specs.BringUp.{IsStarted};
ghost use Rattle.subnet_core.specs.Inventory.{fault_in, of_text, inventory_by};
ghost use Rattle.subnet_core.specs.declared.fault.RunFault.TheVariants.{Script};

use crate::bringing_up::bring_up_by;
use crate::fault::RunFault;
use crate::running::commands_in;
use crate::subnet::Subnet;
use std::alloc::Global;
use updn_routes::TieRule;

/// The subnet of a topology under a partition file, or without one, as a script leaves it, if there is one. The subnet is
/// brought up, with routes by that rule of ties, and the whole script is read, before anything of it is carried out; what it reports is dropped.
///
/// Cables that it cut stay cut: so routes, tables and masks are those that packets go by after its last line.
pub fn left_by(
    alloc: Global,
    topology: &[u8],
    partitions: Option<&[u8]>,
    rule: TieRule,
    script: Option<&[u8]>,
) -> Result<Subnet, RunFault>
    ensures { IsLeft (inventory_by rule topology.now (option_copied partitions.entry)) (option_copied script.entry) result }
{
    let subnet = bring_up_by(alloc, topology, partitions, rule)?;
    match script {
        Some(script) => after(alloc, subnet, script),
        None => Ok(subnet),
    }
}

/// The subnet after a script.
fn after(alloc: Global, subnet: Subnet, script: &[u8]) -> Result<Subnet, RunFault>
    requires { IsStarted subnet }
    ensures inventory { IfOk result (λ left. left.inventory ≡ subnet.inventory) }
    ensures left { IfOk result (IsLeftBy (Some script.now)) }
    ensures fault { IfErr result (λ fault. Fails (fault_in fault) (of_text Script (commands_in subnet.inventory.plan script.now))) }
{
    let mut left = subnet;
    left.inventory().known_listed();
    let commands = commands_in(alloc, &left, script)?;
    left.run_through(&commands)?;
    // What a subnet meets is known once its fabric is looked at.
    let _ = left.fabric();
    Ok(left)
}
