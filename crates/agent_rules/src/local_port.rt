//! PortInfo, as it is shown to who comes in at a port.

ghost use Rattle.std.specs.Prelude.{◌≡◌, ◌<◌};
ghost use Rattle.mad_layout.specs.Layout.{Fits};
ghost use Rattle.attr_tables.specs.PortInfo.{port_info, port_info_bytes};
ghost use Rattle.agent_rules.specs.Agent.{shown_at};

use attr_tables::PortInfo;

/// PortInfo as it is shown to who comes in at this port.
pub fn shown_at(port: u8, info: &PortInfo) -> [u8; 64]
    requires { Fits (port_info info.now) }
    ensures { result ≡ port_info_bytes (shown_at port info.now) }
{
    with_local_port(port, info).to_bytes()
}

fn with_local_port(port: u8, info: &PortInfo) -> PortInfo
    requires { Fits (port_info info.now) }
    ensures value { result ≡ shown_at port info.now }
    ensures fits { Fits (port_info result) }
{
    PortInfo {
        local_port_num: port,
        ..*info
    }
}
