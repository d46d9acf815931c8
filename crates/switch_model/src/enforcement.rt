//! Which packets the ports of a switch let pass.

ghost use Rattle.std.specs.Prelude.{◌≡◌, ◌≤◌, ◌<◌, true, length, IfSome};
ghost use Rattle.switch_model.specs.Forwarding.{leaves_by, passes_inbound, passes_outbound};

use crate::switch_port::SwitchPort;
use pkey_rules::PKey;

/// Whether a packet under this key may come in at the port of that number.
pub fn passes_inbound(number: u8, p_key: PKey, ports: &[SwitchPort]) -> bool
    ensures { result ≡ passes_inbound ports.now number p_key }
{
    match ports.get(usize::from(number)) {
        Some(port) => !port.info.partition_enforcement_inbound || port.accepts(p_key),
        None => false,
    }
}

/// The port of that number, if a packet under this key leaves by it: not port 0, which is the switch itself.
pub fn leaves_by(number: u8, p_key: PKey, ports: &[SwitchPort]) -> Option<u8>
    ensures value { result ≡ leaves_by ports.now p_key number }
    ensures port { IfSome result (λ out. (1 ≤ out) × (out < length ports.now)) }
{
    if number > 0 && passes_outbound(number, p_key, ports) {
        Some(number)
    } else {
        None
    }
}

/// Whether a packet under this key may leave by the port of that number.
pub fn passes_outbound(number: u8, p_key: PKey, ports: &[SwitchPort]) -> bool
    ensures value { result ≡ passes_outbound ports.now number p_key }
    ensures there { result ≡ true → number < length ports.now }
{
    match ports.get(usize::from(number)) {
        Some(port) => !port.info.partition_enforcement_outbound || port.accepts(p_key),
        None => false,
    }
}
