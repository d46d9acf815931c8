//! The ports of a switch: at power-up, and what SMPs read and set of them.

ghost use Rattle.std.specs.Prelude.{◌≡◌, ◌≤◌, ◌<◌, ◌/◌, ◌%◌, ◌^◌, ◌∷◌, length};
ghost use Rattle.agent_rules.specs.Agent.{Leaves};
ghost use Rattle.attr_tables.specs.PortInfo.{port_info};
ghost use Rattle.mad_layout.specs.Layout.{Fits};
ghost use Rattle.switch_model.specs.Agent.{key_block, key_port, get_keys, set_keys, get_port_info, set_port_info};
ghost use Rattle.switch_model.specs.Links.{linked, ports_linked};
ghost use Rattle.switch_model.specs.SwitchState.{AllFit, ports_from};
ghost use Rattle.fabric_parts.specs.declared.limits.TheConstants.{SWITCH_PORTS};

use crate::switch::PORTS_WITH_0;
use crate::switch_port::SwitchPort;
use agent_rules::{
    PortLink, PortSetting, port_info_after, set_word_block, shown_at, word_block_at,
};
use arrayvec::ArrayVec;
use attr_tables::{PortInfo, PortPhysicalState, PortState};
use mad_layout::MadStatus;

/// PortInfo of the port of that number, as it is shown to who comes in at that other port.
pub fn get_port_info(
    in_port: u8,
    number: usize,
    ports: &[SwitchPort],
) -> Result<[u8; 64], MadStatus>
    requires { AllFit ports.now }
    ensures { result ≡ get_port_info in_port number ports.now }
{
    if number >= ports.len() {
        return Err(MadStatus::InvalidField);
    }
    Ok(shown_at(in_port, &ports[number].info))
}

/// The block of a port's P_Key table that the modifier names.
pub fn get_keys(modifier: u32, ports: &[SwitchPort]) -> Result<[u8; 64], MadStatus>
    ensures { result ≡ get_keys modifier ports.now }
{
    let number = key_port(modifier);
    if number >= ports.len() {
        return Err(MadStatus::InvalidField);
    }
    word_block_at(&ports[number].keys, key_block(modifier))
}

/// Sets PortInfo of the port of that number. Port 0 cannot enforce partitions.
#[tactic(auto, using(crate::proofs::PortLemmas::set_fits))]
pub fn set_port_info(
    number: usize,
    wanted: &[u8; 64],
    ports: &mut [SwitchPort],
) -> Result<(), MadStatus>
    requires { AllFit ports.old }
    ensures set { Leaves result ports.old ports.new (set_port_info number wanted.now ports.old) }
    ensures fits { AllFit ports.new }
{
    if number >= ports.len() {
        return Err(MadStatus::InvalidField);
    }
    let setting = PortSetting::read(wanted);
    ports[number].info = port_info_after(&ports[number].info, &setting, number > 0)?;
    Ok(())
}

/// Sets the block of a port's P_Key table that the modifier names.
#[tactic(auto, using(crate::proofs::PortLemmas::set_fits))]
pub fn set_keys(modifier: u32, wanted: &[u8; 64], ports: &mut [SwitchPort]) -> Result<(), MadStatus>
    requires { AllFit ports.old }
    ensures set { Leaves result ports.old ports.new (set_keys modifier wanted.now ports.old) }
    ensures fits { AllFit ports.new }
{
    let number = key_port(modifier);
    if number >= ports.len() {
        return Err(MadStatus::InvalidField);
    }
    let mut port = ports[number];
    set_word_block(&mut port.keys, key_block(modifier), wanted)?;
    ports[number] = port;
    Ok(())
}

/// What the port of that number shows of its link from then on: up, if a cable leads there, or down.
#[tactic(auto, using(crate::proofs::PortLemmas::set_fits))]
pub fn set_link(number: usize, up: bool, ports: &mut [SwitchPort])
    requires there { number < length ports.old }
    requires fit { AllFit ports.old }
    ensures set { ports.new ≡ ports_linked number up ports.old }
    ensures fits { AllFit ports.new }
{
    let mut port = ports[number];
    port.info = linked(up, &port.info);
    ports[number] = port;
}

fn linked(up: bool, info: &PortInfo) -> PortInfo
    requires { Fits (port_info info.now) }
    ensures value { result ≡ linked up info.now }
    ensures fits { Fits (port_info result) }
{
    let (port_state, physical_state) = if up {
        (PortState::Initialize, PortPhysicalState::LinkUp)
    } else {
        (PortState::Down, PortPhysicalState::Polling)
    };
    PortInfo {
        port_state: port_state.code(),
        port_physical_state: physical_state.code(),
        ..*info
    }
}

fn key_port(modifier: u32) -> usize
    ensures { result ≡ key_port modifier }
{
    (modifier >> 16) as usize
}

fn key_block(modifier: u32) -> usize
    ensures { result ≡ key_block modifier }
{
    (modifier & 0xffff) as usize
}

/// The ports of a switch at power-up: port 0, and one for each link.
pub fn ports_at_power_up(links: &[PortLink]) -> ArrayVec<SwitchPort, PORTS_WITH_0>
    requires { length links.now ≤ SWITCH_PORTS }
    ensures ports { result.items ≡ ports_from 0 (PortLink.Internal ∷ links.now) }
    ensures fits { AllFit result.items }
{
    let mut ports = ArrayVec::new();
    ports.push(SwitchPort::at_power_up(0, PortLink::Internal));
    for link in links {
        let number = ports.len() as u8;
        ports.push(SwitchPort::at_power_up(number, *link));
    }
    ports
}
