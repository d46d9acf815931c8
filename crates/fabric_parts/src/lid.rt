//! LIDs, by which the ports of a subnet are named.

ghost use Rattle.std.specs.Prelude.{◌≡◌};
ghost use Rattle.fabric_parts.specs.Lid.{is_multicast, is_reserved};

/// The LID of the SM port in every subnet of ours.
pub const MANAGER_LID: u16 = 1;

/// The greatest LID that a port may have; those above it are for multicast groups.
pub const LAST_UNICAST_LID: u16 = 0xbfff;

/// The least LID of a multicast group.
pub const FIRST_MULTICAST_LID: u16 = 0xc000;

/// The permissive LID: directed-route packets have it if no LID is meant.
pub const PERMISSIVE_LID: u16 = 0xffff;

/// The first half of the GIDs of all ports of a subnet of ours: the link-local prefix, which PortInfo shows.
///
/// Source: IBA volume 1, 14.2.5.6.
pub const GID_PREFIX: u64 = 0xfe80_0000_0000_0000;

/// The LFT entry of a LID to which the switch has no route.
///
/// Source: IBA volume 1, chapter 14.
pub const NO_PORT: u8 = 255;

/// Whether no data packet may be sent to this LID: 0 is nobody's, and the permissive LID is for
/// directed-route packets alone.
///
/// Source: IBA volume 1, chapter 14.
pub fn is_reserved(lid: u16) -> bool
    ensures { result ≡ is_reserved lid }
{
    lid == 0 || lid == PERMISSIVE_LID
}

/// Whether it is the LID of multicast groups: from 0xc000 to the one before the permissive LID.
pub fn is_multicast(lid: u16) -> bool
    ensures { result ≡ is_multicast lid }
{
    FIRST_MULTICAST_LID <= lid && lid < PERMISSIVE_LID
}
