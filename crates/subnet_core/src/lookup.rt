//! Listed ports, found by their GUIDs in constant time: what the plain search of `subnet_model` answers.

ghost use Rattle.std.specs.Prelude.{◌≡◌, IfOk, nat_eq, drop};
ghost use Rattle.std.specs.Option.{option_copied};
ghost use Rattle.indexmap.specs.IndexMap.{get};
ghost use Rattle.subnet_core.specs.Lookup.{Finds, found_in};
ghost use Rattle.subnet_model.specs.Delivery.{port_with_guid};

use indexmap::IndexMap;
use std::alloc::{AllocError, Global};
use std::marker::Model;
use subnet_model::SubnetPort;

/// Listed ports, each found by its GUID; of several with one GUID the first counts.
#[derive(Drop)]
pub(crate) struct PortIndex<'a> {
    ports: &'a [SubnetPort],
    places: &'a IndexMap<u64, usize>,
}

impl<'a> Model for PortIndex<'a> {
    ghost use Rattle.std.specs.Prelude.{List, nat_eq};
    ghost use Rattle.indexmap.specs.IndexMap.{get};
    ghost use Rattle.subnet_core.specs.Lookup.{Finds};
    ghost use Rattle.subnet_model.specs.declared.subnet_port.SubnetPort.{SubnetPort};

    ghost Value = { List SubnetPort };

    ghost view = { λ index. index.ports.now };

    ghost invariant = { λ index. Finds index.ports.now (get nat_eq index.places.now) };
}

impl<'a> PortIndex<'a> {
    /// These ports, with the place of each by its GUID.
    pub(crate) fn new(ports: &'a [SubnetPort], places: &'a IndexMap<u64, usize>) -> PortIndex<'a>
        requires { Finds ports.now (get nat_eq places.now) }
        ensures { result ≡ ports.entry.now }
    {
        PortIndex { ports, places }
    }

    /// The port of that GUID, if one is listed: the first, if there are several.
    pub(crate) fn port_with_guid(&self, guid: u64) -> Option<&SubnetPort>
        ensures { option_copied result ≡ port_with_guid self.now guid }
    {
        let place = *self.places.get(&guid)?;
        self.ports.get(place)
    }
}

/// The place of the port of each GUID. Later ports come first, so that the first of a GUID stays. It can only run out of memory.
pub(crate) fn places_by_guid(
    alloc: Global,
    ports: &[SubnetPort],
) -> Result<IndexMap<u64, usize>, AllocError>
    ensures { IfOk result (λ places. Finds ports.now (get nat_eq places)) }
{
    let mut places = IndexMap::new(alloc);
    for place in (0..ports.len()).rev() {
        places.insert(ports[place].guid, place)?;
    }
    Ok(places)
}
