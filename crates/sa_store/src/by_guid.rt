//! What is reported of ports by their GUIDs.

ghost use Rattle.std.specs.Prelude.{◌≡◌, ◌<◌, true, nat_eq};
ghost use Rattle.std.specs.List.{IsDistinct};
ghost use Rattle.indexmap.specs.IndexMap.{get};
ghost use Rattle.pkey_rules.specs.KeyTable.{holds};
ghost use Rattle.pkey_rules.specs.PKey.{key_of};
ghost use Rattle.subnet_model.specs.Configured.{same_guid};
ghost use Rattle.sa_model.specs.Members.{is_full_member};
ghost use Rattle.sa_store.specs.Kept.{ports_of};
ghost use Rattle.sa_store.specs.Receiving.{is_adapter};
ghost use Rattle.sa_store.specs.Registry.{Finds};

use crate::kept_port::KeptPort;
use indexmap::IndexMap;
use pkey_rules::key_of;
use subnet_model::SubnetPort;

/// Whether the port of a GUID, which has its place by these, is a full member of the partition of a base.
pub(crate) fn is_full_member(
    kept: &[KeptPort],
    places: &IndexMap<u64, usize>,
    base: u16,
    guid: u64,
) -> bool
    requires base { base < 0x8000 }
    requires own { IsDistinct same_guid (ports_of kept.now) }
    requires finds { Finds (ports_of kept.now) (get nat_eq places.now) }
    ensures { result ≡ is_full_member (ports_of kept.now) base guid }
{
    match places.get(&guid) {
        Some(place) => is_full(kept[*place].port(), base),
        None => false,
    }
}

/// Whether a port is a full member of the partition of a base.
fn is_full(own: &SubnetPort, base: u16) -> bool
    requires { base < 0x8000 }
    ensures { result ≡ holds (key_of base true) own.now.keys }
{
    own.keys.find(key_of(base, true)).is_some()
}

/// Whether the port of a GUID, which has its place by these, is one of a channel adapter.
pub(crate) fn is_adapter(kept: &[KeptPort], places: &IndexMap<u64, usize>, guid: u64) -> bool
    requires own { IsDistinct same_guid (ports_of kept.now) }
    requires finds { Finds (ports_of kept.now) (get nat_eq places.now) }
    ensures { result ≡ is_adapter (ports_of kept.now) guid }
{
    match places.get(&guid) {
        Some(place) => !kept[*place].port().node_type.is_switch(),
        None => false,
    }
}
