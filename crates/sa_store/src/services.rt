//! The services of a port.

ghost use Rattle.std.specs.Prelude.{◌≡◌, ◌≤◌, true, false, [], length, map, nat_lt, slice_get, IfOk, OnOk, OnErr};
ghost use Rattle.std.specs.List.{list_any, prefix_len};
ghost use Rattle.std.specs.Option.{option_map_or};
ghost use Rattle.sa_model.specs.Sound.{pairwise};
ghost use Rattle.sa_model.specs.ServiceChange.{Deed, after_deed, has_id, has_room, lower_id, without_service};
ghost use Rattle.sa_store.specs.Kept.{no_place};

use pkey_rules::PKey;
use std::alloc::{AllocError, Global};
use std::marker::Model;

/// How many services a port offers in a partition at most.
const MOST_SERVICES: usize = 16;

/// A service, as its port describes it.
///
/// Source: IBA volume 1, 15.2.5.14.
#[derive(Drop)]
pub struct Service {
    service_id: u64,
    lease: u32,
    name: [u8; 64],
    numbers: [u8; 64],
}

impl Model for Service {
    ghost use Rattle.sa_model.specs.Services.{Service};

    ghost Value = { Service };

    ghost view = { λ service. record {
      service_id = service.service_id;
      lease = service.lease;
      name = service.name;
      numbers = service.numbers;
    } };
}

impl Service {
    /// A service of this ServiceID, lease, name and ServiceData.
    pub fn new(service_id: u64, lease: u32, name: [u8; 64], numbers: [u8; 64]) -> Service
        ensures { result ≡ record { service_id = service_id; lease = lease; name = name; numbers = numbers } }
    {
        Service {
            service_id,
            lease,
            name,
            numbers,
        }
    }

    /// Its ServiceID.
    pub fn service_id(&self) -> u64
        ensures { result ≡ self.now.service_id }
    {
        self.service_id
    }

    /// Its ServiceLease.
    pub fn lease(&self) -> u32
        ensures { result ≡ self.now.lease }
    {
        self.lease
    }

    /// Its ServiceName.
    pub fn name(&self) -> [u8; 64]
        ensures { result ≡ self.now.name }
    {
        self.name
    }

    /// Its ServiceData.
    pub fn numbers(&self) -> [u8; 64]
        ensures { result ≡ self.now.numbers }
    {
        self.numbers
    }
}

/// The services of a port in the partition of a base, by ServiceID.
#[derive(Drop)]
pub struct ServicesOfBase {
    base: u16,
    services: Vec<Service>,
}

impl Model for ServicesOfBase {
    ghost use Rattle.sa_store.specs.Kept.{ServicesOfBase};

    ghost Value = { ServicesOfBase };

    ghost view = { λ place. record { base = place.base; services = place.services.items } };
}

impl ServicesOfBase {
    /// The base.
    pub fn base(&self) -> u16
        ensures { result ≡ self.now.base }
    {
        self.base
    }

    /// The services.
    pub fn as_slice(&self) -> &[Service]
        ensures { result.now ≡ self.now.services }
    {
        self.services.as_slice()
    }

    /// Puts a service among them, in the place of one of its ServiceID. False, and nothing changes, if there is no room.
    pub(crate) fn set(&mut self, service: Service) -> Result<bool, AllocError>
        requires { pairwise lower_id self.old.services ≡ true }
        ensures room { IfOk result (λ stored. stored ≡ has_room service.service_id self.old.services) }
        ensures next { OnOk result (self.new ≡ record self.old { services = after_deed (Deed.sets service) self.old.services }) }
        ensures full { IfOk result (λ stored. stored ≡ false → self.new ≡ self.old) }
        ensures err { OnErr result (self.new ≡ self.old) }
    {
        let id = service.service_id;
        let place = place_for(&self.services, id);
        if is_at(&self.services, place, id) {
            self.services[place] = service;
            return Ok(true);
        }
        if self.services.len() >= MOST_SERVICES {
            return Ok(false);
        }
        self.services.insert(place, service)?;
        Ok(true)
    }

    /// Takes the service of a ServiceID away. False if there is none.
    pub(crate) fn delete(&mut self, id: u64) -> bool
        requires { pairwise lower_id self.old.services ≡ true }
        ensures found { result ≡ list_any (has_id id) self.old.services }
        ensures next { self.new ≡ record self.old { services = without_service id self.old.services } }
        ensures none { result ≡ false → self.new ≡ self.old }
    {
        let place = place_for(&self.services, id);
        if !is_at(&self.services, place, id) {
            return false;
        }
        self.services.remove(place);
        true
    }

    fn none(alloc: Global, base: u16) -> ServicesOfBase
        ensures { result ≡ record { base = base; services = [] } }
    {
        ServicesOfBase {
            base,
            services: Vec::new(alloc),
        }
    }
}

/// How many services have a lower ServiceID.
fn place_for(services: &[Service], id: u64) -> usize
    ensures value { result ≡ prefix_len (λ service. nat_lt service.service_id id) services.now }
    ensures within { result ≤ length services.now }
{
    services
        .iter()
        .take_while(|service| service.service_id < id)
        .count()
}

/// Whether the service at a place has this ServiceID.
fn is_at(services: &[Service], place: usize, id: u64) -> bool
    ensures { result ≡ option_map_or (has_id id) (slice_get services.now place) false }
{
    match services.get(place) {
        Some(service) => service.service_id == id,
        None => false,
    }
}

/// A place for services in the partition of each of these keys, and none in any.
pub(crate) fn no_services(alloc: Global, keys: &[PKey]) -> Result<Vec<ServicesOfBase>, AllocError>
    ensures { IfOk result (λ places. places.items ≡ map no_place keys.now) }
{
    let mut places = Vec::new(alloc);
    for key in keys {
        places.push(ServicesOfBase::none(alloc, key.base()))?;
    }
    Ok(places)
}
