//! End ports that tests of partitions share.

use partition_file::Members;
use pkey_rules::EndPort;

/// The end ports of the two-switch fabric: the manager's, port 0 of both switches, and those of the
/// other adapters.
pub fn end_ports() -> [EndPort; 6] {
    let port = |guid: u64, is_switch: bool, is_sm: bool| EndPort {
        guid,
        is_switch,
        is_sm,
    };
    [
        port(0x101, false, true),
        port(0x10, true, false),
        port(0x20, true, false),
        port(0x111, false, false),
        port(0x121, false, false),
        port(0x131, false, false),
    ]
}

/// The keys of these bases that the port at a place holds, 0 for none.
pub fn keys_of(members: &Members, place: usize, bases: [u16; 2]) -> [u16; 2] {
    let [first, second] = bases;
    [
        key_of(members, place, first),
        key_of(members, place, second),
    ]
}

fn key_of(members: &Members, place: usize, base: u16) -> u16 {
    match members.keys().get(place) {
        Some(keys) => keys.find_base(base).map_or(0, |key| key.bits()),
        None => 0,
    }
}
