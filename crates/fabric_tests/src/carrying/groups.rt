//! Packets to multicast LIDs if an allocation fails, and on the greatest fabric.

mod fat_tree;

use crate::carrying::fixtures::H0;
use crate::carrying::is_delivered_or_refused;

#[test]
fn a_packet_to_a_group_is_delivered_or_memory_is_refused(rt: HostRuntime) {
    is_delivered_or_refused(&rt, rt.alloc(), H0, 0xc020, 0x23);
}
