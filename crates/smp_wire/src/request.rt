//! The requests of a subnet manager.

ghost use Rattle.std.specs.Prelude.{◌≡◌, ◌≤◌, ◌<◌, length};
ghost use Rattle.mad_layout.specs.Layout.{Holds};
ghost use Rattle.mad_layout.specs.Method.{method_code};
ghost use Rattle.agent_rules.specs.Request.{data_of};
ghost use Rattle.smp_wire.specs.Requests.{AsksFor, AsksToGet, AsksToSet, path_entries, plain_get, plain_request, plain_set};

use agent_rules::{DIRECTED_ROUTE_CLASS, SMP_VERSION};
use attr_tables::SmpAttribute;
use fabric_parts::PERMISSIVE_LID;
use mad_layout::{DrSmp, Header, Mad, Method, known_bytes};

/// The SMP that asks for that part of an attribute, at the end of that path.
pub fn get_request(transaction_id: u64, attribute: SmpAttribute, modifier: u32, path: &[u8]) -> Mad
    requires { length path.now ≤ 63 }
    ensures asks { AsksToGet attribute modifier path.now result }
    ensures plain { Holds result (plain_get transaction_id attribute modifier path.now) }
{
    request(
        Method::Get,
        transaction_id,
        attribute,
        modifier,
        path,
        [0; 64],
    )
}

/// The SMP that sets that part of an attribute to these 64 bytes, at the end of that path.
pub fn set_request(
    transaction_id: u64,
    attribute: SmpAttribute,
    modifier: u32,
    path: &[u8],
    wanted: &[u8; 64],
) -> Mad
    requires { length path.now ≤ 63 }
    ensures asks { AsksToSet attribute modifier path.now wanted.now result }
    ensures plain { Holds result (plain_set transaction_id attribute modifier path.now wanted.now) }
{
    request(
        Method::Set,
        transaction_id,
        attribute,
        modifier,
        path,
        *wanted,
    )
}

/// A request by that method, which is no method of a response.
fn request(
    method: Method,
    transaction_id: u64,
    attribute: SmpAttribute,
    modifier: u32,
    path: &[u8],
    wanted: [u8; 64],
) -> Mad
    requires path { length path.now ≤ 63 }
    requires method { method_code method < 128 }
    ensures asks { AsksFor method attribute modifier path.now result }
    ensures plain { Holds result (plain_request method transaction_id attribute modifier path.now wanted) }
    ensures carried { data_of result ≡ wanted }
{
    let header = Header {
        base_version: SMP_VERSION,
        mgmt_class: DIRECTED_ROUTE_CLASS,
        class_version: SMP_VERSION,
        method: method.code(),
        status: 0,
        class_specific: 0,
        transaction_id,
        attribute_id: attribute.code(),
        attribute_modifier: modifier,
    };
    let route = DrSmp {
        direction: false,
        status: 0,
        hop_pointer: 0,
        hop_count: path.len() as u8,
        m_key: 0,
        dr_slid: PERMISSIVE_LID,
        dr_dlid: PERMISSIVE_LID,
        data: wanted,
        initial_path: initial_path(path),
        return_path: [0; 64],
    };
    let mut smp = [0; 256];
    header.write(&mut smp);
    route.write(&mut smp);
    known_bytes(&smp);
    smp
}

/// The ports by which hops leave, the first in entry 1.
fn initial_path(path: &[u8]) -> [u8; 64]
    requires { length path.now ≤ 63 }
    ensures { result ≡ path_entries path.now }
{
    let mut ports = [0; 64];
    ports[1..1 + path.len()].copy_from_slice(path);
    ports
}
