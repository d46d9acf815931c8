//! The numbers of packets, written out.

ghost use Rattle.std.specs.Prelude.{◌≡◌};
ghost use Rattle.data_packet.specs.declared.payload.TheConstants.{PAYLOAD_BYTES};
ghost use Rattle.data_packet.specs.declared.queue_pair.TheConstants.{GENERAL_SERVICES_QP, SUBNET_MANAGEMENT_QP};

/// How long a payload may be, which is ours, and the numbers of two queue pairs, written out. Like every law the
/// function does nothing: its contract is the law.
pub fn the_numbers()
    ensures payload_bytes { PAYLOAD_BYTES ≡ 256 }
    ensures subnet_management { SUBNET_MANAGEMENT_QP ≡ 0 }
    ensures general_services { GENERAL_SERVICES_QP ≡ 1 }
{}
