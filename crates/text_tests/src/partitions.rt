//! A worked partition file, of several definitions of one base.

use crate::fixtures::end_ports;
use partition_file::{BroadcastGroup, Item, Partition, Ports, members, read};
use std::test::Fail;

fn is_merged(partition: &Partition) -> bool {
    let item = |ports: Ports, full: bool| Item { ports, full };
    let items = [
        item(Ports::Guid(0x111), true),
        item(Ports::Guid(0x111), false),
        item(Ports::Guid(0x121), false),
        item(Ports::Manager, false),
    ];
    let group = BroadcastGroup {
        rate: 3,
        mtu: 4,
        service_level: 3,
        scope: 5,
        q_key: 0x0b1b,
    };
    partition.base == 1
        && partition.name.as_bytes() == b"P1".as_slice()
        && partition.items.as_slice() == items.as_slice()
        && partition.group == Some(group)
}

#[test]
fn definitions_of_one_base_are_merged(rt: HostRuntime) -> Result<(), Fail> {
    let text =
        b"P1=0x0001: 0x111=full; Q1 = 0x8001 ,ipoib,sl=3,scope=5: 0x111 , 0x121 ; R=1,ipoib,rate=2:SELF; # end";
    let partitions = read(rt.alloc(), text)?;
    assert!(rt; partitions.as_slice().len() == 2);
    assert!(rt; is_merged(partitions.as_slice().get(1).ok_or("a partition")?));
    // RFC 4391: ff1s:401b:kkkk::ffff:ffff.
    let mgid = [
        0xff, 0x15, 0x40, 0x1b, 0x80, 0x01, 0, 0, 0, 0, 0, 0, 0xff, 0xff, 0xff, 0xff,
    ];
    let members = members(rt.alloc(), &partitions, &end_ports())?;
    let heading = members.headings().get(1).ok_or("a partition")?;
    assert!(rt; heading.mgid() == Some(mgid));
    Ok(())
}
