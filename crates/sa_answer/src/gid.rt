//! The GIDs of ports.

ghost use Rattle.std.specs.Prelude.{◌≡◌, ◌/◌, ◌%◌, ◌==◌};
ghost use Rattle.sa_model.specs.Gid.{gid_of};
ghost use Rattle.sa_answer.specs.Asked.{guid_in};

use fabric_parts::GID_PREFIX;

/// The GID of the port of a GUID.
pub(crate) fn gid_of(guid: u64) -> u128
    ensures { result ≡ gid_of guid }
{
    (u128::from(GID_PREFIX) << 64) + u128::from(guid)
}

/// The GUID of the port that may have this GID, if it has the subnet's prefix.
pub(crate) fn guid_in(gid: u128) -> Option<u64>
    ensures { result ≡ guid_in gid }
{
    if (gid >> 64) as u64 == GID_PREFIX {
        Some((gid % (1 << 64)) as u64)
    } else {
        None
    }
}
