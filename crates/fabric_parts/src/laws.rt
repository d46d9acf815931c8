//! The numbers of all fabrics, written out. Like every law the functions do nothing: their contracts are the laws.

ghost use Rattle.std.specs.Prelude.{◌≡◌, ◌≤◌, ◌+◌, ◌*◌, ◌^◌};
ghost use Rattle.fabric_parts.specs.Lid.{manager_lid};
ghost use Rattle.fabric_parts.specs.declared.lid.TheConstants.{FIRST_MULTICAST_LID, GID_PREFIX, LAST_UNICAST_LID, MANAGER_LID, NO_PORT, PERMISSIVE_LID};
ghost use Rattle.fabric_parts.specs.declared.limits.TheConstants.{ADAPTER_PORTS, NAME_BYTES, PORTS_OF_AN_ADAPTER, SWITCH_PORTS, SWITCHES};
ghost use Rattle.fabric_parts.specs.declared.limits.TheConstants.{LARGE_ADAPTER_PORTS, LARGE_SWITCH_PORTS, LARGE_SWITCHES};

/// The numbers of LIDs: the subnet manager's is 1, and those of ports end where those of multicast groups begin, at
/// 0xc000.
pub fn the_numbers()
    ensures manager_lid { (MANAGER_LID ≡ manager_lid) × (manager_lid ≡ 1) }
    ensures last_unicast_lid { LAST_UNICAST_LID ≡ 0xbfff }
    ensures first_multicast_lid { FIRST_MULTICAST_LID ≡ 0xc000 }
    ensures permissive_lid { PERMISSIVE_LID ≡ 0xffff }
    ensures gid_prefix { GID_PREFIX ≡ 0xfe80 * 2 ^ 48 }
    ensures no_port { NO_PORT ≡ 255 }
{}

/// How big fabrics may be: the numbers are ours.
pub fn the_limits()
    ensures switches { SWITCHES ≡ 64 }
    ensures adapter_ports { ADAPTER_PORTS ≡ 256 }
    ensures switch_ports { SWITCH_PORTS ≡ 36 }
    ensures ports_of_an_adapter { PORTS_OF_AN_ADAPTER ≡ 8 }
    ensures name_bytes { NAME_BYTES ≡ 32 }
    ensures large_switches { LARGE_SWITCHES ≡ 5000 }
    ensures large_adapter_ports { LARGE_ADAPTER_PORTS ≡ 44000 }
    ensures large_switch_ports { LARGE_SWITCH_PORTS ≡ 254 }
    ensures lids { LARGE_SWITCHES + LARGE_ADAPTER_PORTS ≤ LAST_UNICAST_LID }
{}
