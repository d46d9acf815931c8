//! The group that all members of a partition share.

ghost use Rattle.std.specs.Prelude.{◌≡◌};
ghost use Rattle.partition_file.specs.Partitions.{group_by, mgid_of};

use crate::flag::Flags;
use pkey_rules::{base_of, key_of};

/// The multicast group that a partition file makes for IP over InfiniBand.
#[derive(Clone, Copy, Debug, PartialEq, Eq)]
pub struct BroadcastGroup {
    /// The rate, as records of subnet administration code it: 2, 3 or 5.
    pub rate: u8,
    /// The MTU, as PortInfo codes it: 1 to 4.
    pub mtu: u8,
    /// The service level, at most 15.
    pub service_level: u8,
    /// The scope, at most 15.
    pub scope: u8,
    /// The Q_Key.
    pub q_key: u32,
}

impl BroadcastGroup {
    pub(crate) fn new(flags: Flags) -> BroadcastGroup
        ensures { result ≡ group_by flags }
    {
        BroadcastGroup {
            rate: flags.rate.unwrap_or(3),
            mtu: flags.mtu.unwrap_or(4),
            service_level: flags.service_level.unwrap_or(0),
            scope: flags.scope.unwrap_or(2),
            q_key: flags.q_key.unwrap_or(0x0b1b),
        }
    }
}

/// ff1s:401b:kkkk:0000:0000:0000:ffff:ffff, where s is the scope and k the partition's full key.
pub(crate) fn mgid_of(scope: u8, base: u16) -> [u8; 16]
    ensures { result ≡ mgid_of scope base }
{
    let key = key_of(base_of(base), true);
    let high = (key / 256) as u8;
    let low = (key % 256) as u8;
    let flags_and_scope = 0x10 + scope % 0x10;
    [
        0xff,
        flags_and_scope,
        0x40,
        0x1b,
        high,
        low,
        0,
        0,
        0,
        0,
        0,
        0,
        0xff,
        0xff,
        0xff,
        0xff,
    ]
}
