//! The database of the SA: what it knows of a subnet, and what it remembers.

ghost use Rattle.std.specs.Prelude.{◌≡◌, ◌==◌, ◌<◌, true, false, get_or, length, map, Some, None, IfOk, IfSome, OnOk, OnErr, nat_eq};
ghost use Rattle.std.specs.List.{list_any};
ghost use Rattle.std.specs.Option.{ForSome};
ghost use Rattle.indexmap.specs.IndexMap.{get};
ghost use Rattle.partition_file.specs.Members.{AreSoundHeadings};
ghost use Rattle.subnet_model.specs.Configured.{IsConfigured};
ghost use Rattle.subnet_model.specs.declared.subnet_port.SubnetPort.{SubnetPort};
ghost use Rattle.sa_model.specs.Groups.{start_from};
ghost use Rattle.sa_replies.specs.State.{IsRememberedOf, at_start, is_fit_service};
ghost use Rattle.sa_replies.specs.Transfers.{table_of, with_table};
ghost use Rattle.subnet_model.specs.Delivery.{port_with_guid};
ghost use Rattle.sa_store.specs.NodePorts.{all_with_keys, configured};
ghost use Rattle.sa_store.specs.Kept.{at_the_start, ports_of, services_of};
ghost use Rattle.pkey_rules.specs.KeyTable.{has_base};
ghost use Rattle.sa_model.specs.ServiceChange.{has_id, has_room};
ghost use Rattle.sa_replies.specs.ServiceRequests.{services_at};
ghost use Rattle.sa_store.specs.Registry.{Finds, IsRequester, configuration_in, deleted_by, of_guid, of_lid, of_port, place_with_guid, set_by, with_change};

use crate::kept_port::KeptPort;
use crate::mlid_range::MlidRange;
use crate::node_port::NodePort;
use crate::requester::Requester;
use crate::services::Service;
use indexmap::IndexMap;
use partition_file::{Heading, Members};
use pkey_rules::{KeyTable, PARTITIONS};
use rmpp_core::Sender;
use std::alloc::{AllocError, Global};
use std::marker::Model;
use subnet_model::{Configuration, NodeName, SubnetPort};

/// What the SA knows of a subnet, and what it remembers between two requests.
///
/// Its value is the subnet's ports and partitions, the groups, services and RMPP transfers in progress, and whether an allocation
/// ever failed while it changed. A LID less 1 is the place of its port.
pub struct Store {
    pub(crate) alloc: Global,
    pub(crate) kept: Vec<KeptPort>,
    pub(crate) places: IndexMap<u64, usize>,
    headings: Vec<Heading>,
    pub(crate) partitions: Vec<MlidRange>,
    pub(crate) is_broken: bool,
}

// As derived, but by one call: else what owns one is proved to let go of each of its parts, on each way out.
impl Drop for Store {
    fn drop(self) {
        let Store {
            alloc: _,
            kept: _,
            places: _,
            headings: _,
            partitions: _,
            is_broken: _,
        } = self;
    }
}

impl Model for Store {
    ghost use Rattle.std.specs.Prelude.{nat_eq};
    ghost use Rattle.indexmap.specs.IndexMap.{get};
    ghost use Rattle.sa_store.specs.Registry.{IsRegistry, RegistryState, registry_in};

    ghost Value = { RegistryState };

    ghost view = { λ r. registry_in r.kept.items r.headings.items r.partitions.items r.is_broken };

    ghost invariant = { λ r. IsRegistry r.kept.items r.headings.items r.partitions.items (get nat_eq r.places) };
}

impl Store {
    /// The store of a subnet before its first command: of these ports in order of LID, with the partitions of a partition file
    /// and the keys that it gives each of them. It fails only if an allocation does.
    pub fn new(alloc: Global, ports: &[NodePort], members: &Members) -> Result<Store, AllocError>
        requires each { length members.now.keys ≡ length ports.now }
        requires configured { IsConfigured (configured ports.now members.now) }
        ensures { IfOk result (λ registry. registry ≡ record {
          configuration = configured ports.now members.now;
          administration = at_start (configured ports.now members.now);
          is_broken = false;
        }) }
    {
        let kept = kept_ports(alloc, ports, members.keys())?;
        before_commands(alloc, kept, members.headings())
    }

    /// The same, of a subnet as it is configured. It fails only if an allocation does.
    pub fn of(alloc: Global, configuration: &Configuration) -> Result<Store, AllocError>
        requires { IsConfigured configuration.now }
        ensures { IfOk result (λ registry. registry ≡ record {
          configuration = configuration.now;
          administration = at_start configuration.now;
          is_broken = false;
        }) }
    {
        let kept = kept_copies(alloc, configuration.ports())?;
        before_commands(alloc, kept, configuration.partitions())
    }

    /// What holds at any time, whatever ports sent before: the subnet is configured, and what is remembered may be remembered
    /// of it.
    pub fn known(&self)
        ensures configured { IsConfigured self.now.configuration }
        ensures remembered { IsRememberedOf self.now.configuration self.now.administration.remembered }
    {
        // What a value meets is known once a field is named.
        let _ = &self.partitions;
    }

    /// Whether an allocation failed while it changed.
    pub fn is_broken(&self) -> bool
        ensures { result ≡ self.now.is_broken }
    {
        self.is_broken
    }

    /// An allocation failed while it changed.
    pub fn fail(&mut self)
        ensures { self.new ≡ record self.old { is_broken = true } }
    {
        self.is_broken = true;
    }

    /// The allocator.
    pub fn alloc(&self) -> Global {
        self.alloc
    }

    /// The MLID ranges of the partitions, each with its groups.
    pub fn partitions(&self) -> &[MlidRange]
        ensures { result.now ≡ self.now.administration.remembered.partitions }
    {
        self.partitions.as_slice()
    }

    /// The MLID range of the partition of that place.
    pub fn partition_at(&self, place: usize) -> &MlidRange
        requires { place < length self.now.administration.remembered.partitions }
        ensures { result.now ≡ get_or self.now.administration.remembered.partitions place result.now }
    {
        &self.partitions[place]
    }

    /// The ports by LID, with what is kept for each.
    pub fn kept(&self) -> &[KeptPort]
        ensures ports { ports_of result.now ≡ self.now.configuration.ports }
        ensures services { services_of result.now ≡ self.now.administration.remembered.services }
    {
        self.kept.as_slice()
    }

    /// The port of a GUID as one that sends requests, if there is such a port.
    pub fn requester(&self, guid: u64) -> Option<Requester>
        ensures found { IfSome result (λ requester. IsRequester self.now.configuration.ports requester × (requester.guid ≡ guid)) }
        ensures none { result ≡ None → place_with_guid self.now.configuration.ports guid ≡ None }
    {
        match self.place_of(guid) {
            Some(place) => Some(Requester { guid, place }),
            None => None,
        }
    }

    /// The place of the port of a GUID, if there is one.
    fn place_of(&self, guid: u64) -> Option<usize>
        ensures { result ≡ place_with_guid self.now.configuration.ports guid }
    {
        self.places.get(&guid).copied()
    }

    /// Begins this RMPP transfer to a port, or none, in place of the one that was in progress.
    pub fn replace_table(&mut self, requester: Requester, table: Option<Sender>) -> Option<Sender>
        requires { IsRequester self.old.configuration.ports requester }
        ensures was { result ≡ table_of requester.guid self.old.administration.transfers }
        ensures next { self.new ≡ record self.old {
          administration = record self.old.administration {
            transfers = with_table requester.guid table self.old.administration.transfers;
          };
        } }
    {
        self.kept[requester.place].replace_table(table)
    }

    /// Puts a service among those that a port offers in a partition of its own. False, and nothing changes, if there is no room.
    pub fn set_service(
        &mut self,
        requester: Requester,
        base: u16,
        service: Service,
    ) -> Result<bool, AllocError>
        requires place { IsRequester self.old.configuration.ports requester }
        requires member { ForSome (port_with_guid self.old.configuration.ports requester.guid) (λ own. has_base base own.keys ≡ true) }
        requires fit { is_fit_service service ≡ true }
        ensures room { IfOk result (λ stored. stored ≡ has_room service.service_id
            (services_at (set_by requester.guid base service) self.old.administration.remembered.services)) }
        ensures next { OnOk result (self.new ≡ with_change (set_by requester.guid base service) self.old) }
        ensures full { IfOk result (λ stored. stored ≡ false → self.new ≡ self.old) }
        ensures err { OnErr result (self.new ≡ self.old) }
    {
        self.kept[requester.place].set_service(base, service)
    }

    /// Takes the service of a ServiceID away from those that a port offers in a partition of its own. False if there is none.
    pub fn delete_service(&mut self, requester: Requester, base: u16, id: u64) -> bool
        requires place { IsRequester self.old.configuration.ports requester }
        requires member { ForSome (port_with_guid self.old.configuration.ports requester.guid) (λ own. has_base base own.keys ≡ true) }
        ensures found { result ≡ list_any (has_id id)
            (services_at (deleted_by requester.guid base id) self.old.administration.remembered.services) }
        ensures next { self.new ≡ with_change (deleted_by requester.guid base id) self.old }
        ensures none { result ≡ false → self.new ≡ self.old }
    {
        self.kept[requester.place].delete_service(base, id)
    }

    /// What is kept for a port.
    pub fn kept_at(&self, requester: Requester) -> &KeptPort
        requires { IsRequester self.now.configuration.ports requester }
        ensures { Some result.now.port ≡ port_with_guid self.now.configuration.ports requester.guid }
    {
        &self.kept[requester.place]
    }

    /// The port of a LID alone, or none.
    pub fn of_lid(&self, lid: u16) -> &[KeptPort]
        ensures { ports_of result.now ≡ of_lid lid self.now.configuration.ports }
    {
        let lid = usize::from(lid);
        if lid == 0 || lid > self.kept.len() {
            return &[];
        }
        &self.kept[lid - 1..lid]
    }

    /// The port of a GUID alone, or none.
    pub fn of_guid(&self, guid: u64) -> &[KeptPort]
        ensures ports { ports_of result.now ≡ of_guid guid self.now.configuration.ports }
        ensures services { services_of result.now ≡ of_port guid self.now.administration.remembered.services }
    {
        match self.place_of(guid) {
            Some(place) => &self.kept[place..place + 1],
            None => &[],
        }
    }
}

/// The store of ports that did nothing yet, in these partitions.
fn before_commands(
    alloc: Global,
    kept: Vec<KeptPort>,
    headings: &[Heading],
) -> Result<Store, AllocError>
    requires configured { IsConfigured (configuration_in kept.items headings.now) }
    requires start { kept.items ≡ map at_the_start (ports_of kept.items) }
    ensures { IfOk result (λ registry. registry ≡ record {
      configuration = configuration_in kept.items headings.now;
      administration = at_start (configuration_in kept.items headings.now);
      is_broken = false;
    }) }
{
    let places = places_by_guid(alloc, &kept)?;
    Ok(Store {
        alloc,
        kept,
        places,
        headings: copied(alloc, headings)?,
        partitions: partitions_at_start(alloc, headings)?,
        is_broken: false,
    })
}

/// A copy of each port, and nothing that it did yet.
fn kept_copies(alloc: Global, ports: &[SubnetPort]) -> Result<Vec<KeptPort>, AllocError>
    ensures { IfOk result (λ kept. kept.items ≡ map at_the_start ports.now) }
{
    let mut kept = Vec::new(alloc);
    for port in ports {
        kept.push(KeptPort::new(alloc, copy_of(port)?)?)?;
    }
    Ok(kept)
}

fn copy_of(port: &SubnetPort) -> Result<SubnetPort, AllocError>
    ensures { IfOk result (λ copy. copy ≡ port.now) }
{
    Ok(SubnetPort {
        lid: port.lid,
        guid: port.guid,
        node_name: NodeName::new(port.node_name.as_slice()),
        node_guid: port.node_guid,
        num_ports: port.num_ports,
        number: port.number,
        node_type: port.node_type,
        keys: port.keys.clone()?,
    })
}

/// Each port with its keys, and nothing that it did yet.
fn kept_ports(
    alloc: Global,
    ports: &[NodePort],
    keys: &[KeyTable<PARTITIONS>],
) -> Result<Vec<KeptPort>, AllocError>
    requires { length keys.now ≡ length ports.now }
    ensures { IfOk result (λ kept. kept.items ≡ map at_the_start (all_with_keys ports.now keys.now)) }
{
    let mut kept = Vec::new(alloc);
    for (place, port) in ports.iter().enumerate() {
        let held = keys[place].clone()?;
        kept.push(KeptPort::new(alloc, port.with_keys(held))?)?;
    }
    Ok(kept)
}

/// The place of the port of each GUID. Later ports come first, so that the first of a GUID stays.
fn places_by_guid(alloc: Global, kept: &[KeptPort]) -> Result<IndexMap<u64, usize>, AllocError>
    ensures { IfOk result (λ places. Finds (ports_of kept.now) (get nat_eq places)) }
{
    let mut places = IndexMap::new(alloc);
    for place in (0..kept.len()).rev() {
        places.insert(kept[place].guid(), place)?;
    }
    Ok(places)
}

/// The MLID range of each partition before anybody joins.
fn partitions_at_start(alloc: Global, headings: &[Heading]) -> Result<Vec<MlidRange>, AllocError>
    requires { AreSoundHeadings headings.now }
    ensures { IfOk result (λ partitions. partitions.items ≡ start_from 0 headings.now) }
{
    let mut partitions = Vec::new(alloc);
    for (number, heading) in headings.iter().enumerate() {
        partitions.push(MlidRange::of_file(alloc, number as u16, heading)?)?;
    }
    Ok(partitions)
}

/// The same partitions, to keep.
fn copied(alloc: Global, headings: &[Heading]) -> Result<Vec<Heading>, AllocError>
    ensures { IfOk result (λ copies. copies.items ≡ headings.now) }
{
    let mut copies = Vec::new(alloc);
    for heading in headings {
        copies.push(heading.clone()?)?;
    }
    Ok(copies)
}
