//! The linear forwarding table, read and set by blocks.

ghost use Rattle.std.specs.Prelude.{◌≡◌};
ghost use Rattle.agent_rules.specs.Agent.{Leaves};
ghost use Rattle.switch_model.specs.Agent.{get_linear, set_linear, set_linear_top};

use agent_rules::{linear_fdb_top_in, ports_in};
use attr_tables::{PORTS_PER_BLOCK, SwitchInfo};
use mad_layout::MadStatus;

/// The block of that number of a linear forwarding table.
#[tactic(auto, unfolding(attr_tables::specs::Blocks::block_of))]
pub fn get_linear(block: usize, linear: &[u8]) -> Result<[u8; 64], MadStatus>
    ensures { result ≡ get_linear block linear.now }
{
    if block >= linear.len() / PORTS_PER_BLOCK {
        return Err(MadStatus::InvalidField);
    }
    let mut ports = [0; PORTS_PER_BLOCK];
    let first = PORTS_PER_BLOCK * block;
    ports.copy_from_slice(&linear[first..first + PORTS_PER_BLOCK]);
    Ok(ports)
}

/// Sets the block of that number of a linear forwarding table.
#[tactic(auto, unfolding(attr_tables::specs::Blocks::with_block))]
pub fn set_linear(block: usize, wanted: &[u8; 64], linear: &mut [u8]) -> Result<(), MadStatus>
    ensures { Leaves result linear.old linear.new (set_linear block wanted.now linear.old) }
{
    if block >= linear.len() / PORTS_PER_BLOCK {
        return Err(MadStatus::InvalidField);
    }
    let first = PORTS_PER_BLOCK * block;
    linear[first..first + PORTS_PER_BLOCK].copy_from_slice(&ports_in(wanted));
    Ok(())
}

/// Sets LinearFDBTop of a switch whose table has so many LIDs.
pub fn set_linear_top(
    modifier: u32,
    wanted: &[u8; 64],
    lids: usize,
    info: &mut SwitchInfo,
) -> Result<(), MadStatus>
    ensures set { Leaves result info.old info.new (set_linear_top modifier wanted.now lids info.old) }
    ensures life_time_value { info.new.life_time_value ≡ info.old.life_time_value }
{
    if modifier != 0 {
        return Err(MadStatus::InvalidField);
    }
    let top = linear_fdb_top_in(wanted);
    if usize::from(top) >= lids {
        return Err(MadStatus::InvalidField);
    }
    info.linear_fdb_top = top;
    Ok(())
}
