//! What is kept for a port.

ghost use Rattle.std.specs.Prelude.{◌≡◌, ◌<◌, ◌^◌, ◌-◌, ◌++◌, false, length, map, position, replicate, IfOk, OnOk, OnErr};
ghost use Rattle.std.specs.List.{list_any};
ghost use Rattle.mad_layout.specs.Layout.{Fits};
ghost use Rattle.sa_records.specs.NodeRecord.{node_record, node_record_bytes};
ghost use Rattle.fabric_parts.specs.NodeType.{node_type_code};
ghost use Rattle.pkey_rules.specs.PKey.{base_of};
ghost use Rattle.subnet_model.specs.declared.subnet_port.SubnetPort.{SubnetPort};
ghost use Rattle.sa_model.specs.KeyOrder.{by_base};
ghost use Rattle.sa_model.specs.Shown.{node_record_of};
ghost use Rattle.sa_model.specs.ServiceChange.{Deed, has_id, has_room};
ghost use Rattle.sa_store.specs.Deeds.{CanChange, is_of_base, services_in, with_deed};
ghost use Rattle.sa_store.specs.Kept.{at_the_start, node_bytes};

use crate::keys::by_base;
use crate::services::{Service, ServicesOfBase, no_services};
use attr_tables::NodeDescription;
use mad_layout::known_bytes;
use pkey_rules::{PARTITIONS, PKey};
use rmpp_core::Sender;
use sa_records::{NODE_RECORD_BYTES, NodeRecord};
use std::alloc::{AllocError, Global};
use std::marker::Model;
use subnet_model::SubnetPort;

/// A port, its services by base, and the RMPP transfer to it that is in progress, at most one; and what answers take from it,
/// prepared.
#[derive(Drop)]
pub struct KeptPort {
    port: SubnetPort,
    keys: Vec<PKey>,
    shown: NodeRecord,
    bytes: [u8; NODE_RECORD_BYTES],
    services: Vec<ServicesOfBase>,
    open_table: Option<Sender>,
}

impl Model for KeptPort {
    ghost use Rattle.sa_store.specs.Kept.{KeptPort, IsPrepared};

    ghost Value = { KeptPort };

    ghost view = { λ kept. record { port = kept.port; services = kept.services.items; open_table = kept.open_table } };

    ghost invariant = { λ kept. IsPrepared kept.port kept.keys.items kept.shown kept.bytes kept.services.items };
}

impl KeptPort {
    /// A port that has no service, and no table open to it.
    #[tactic(auto, using(crate::proofs::StartLemmas::same_bases))]
    pub(crate) fn new(alloc: Global, port: SubnetPort) -> Result<KeptPort, AllocError>
        ensures { IfOk result (λ kept. kept ≡ at_the_start port) }
    {
        let keys = by_base(alloc, &port.keys)?;
        let services = no_services(alloc, &keys)?;
        let shown = node_record_of(&port);
        Ok(KeptPort {
            port,
            keys,
            shown,
            bytes: bytes_of(&shown),
            services,
            open_table: None,
        })
    }
}

impl KeptPort {
    /// Its GUID.
    pub fn guid(&self) -> u64
        ensures { result ≡ self.now.port.guid }
    {
        self.port.guid
    }

    /// The port.
    pub fn port(&self) -> &SubnetPort
        ensures { result.now ≡ self.now.port }
    {
        &self.port
    }

    /// Its keys by base.
    pub fn keys(&self) -> &[PKey]
        ensures { result.now ≡ by_base self.now.port.keys }
    {
        self.keys.as_slice()
    }

    /// Its services, by base.
    pub fn services(&self) -> &[ServicesOfBase]
        ensures value { result.now ≡ self.now.services }
        ensures places { map (λ place. place.base) result.now ≡ map base_of (by_base self.now.port.keys) }
    {
        self.services.as_slice()
    }

    /// Its NodeRecord.
    pub fn shown(&self) -> &NodeRecord
        ensures { result.now ≡ node_record_of self.now.port }
    {
        &self.shown
    }

    /// The bytes of its NodeRecord.
    pub fn bytes(&self) -> &[u8; NODE_RECORD_BYTES]
        ensures { result.now ≡ node_bytes self.now.port }
    {
        &self.bytes
    }

    /// Puts a service among those of a base, in the place of one of its ServiceID. False, and nothing changes, if there is
    /// no room.
    pub(crate) fn set_service(&mut self, base: u16, service: Service) -> Result<bool, AllocError>
        requires { CanChange base self.old }
        ensures room { IfOk result (λ stored. stored ≡ has_room service.service_id (services_in base self.old.services)) }
        ensures next { OnOk result (self.new ≡ with_deed base (Deed.sets service) self.old) }
        ensures full { IfOk result (λ stored. stored ≡ false → self.new ≡ self.old) }
        ensures err { OnErr result (self.new ≡ self.old) }
    {
        let Some(place) = place_of_base(&self.services, base) else {
            unreachable!()
        };
        self.services[place].set(service)
    }

    /// Takes the service of a ServiceID away from those of a base. False if there is none.
    pub(crate) fn delete_service(&mut self, base: u16, id: u64) -> bool
        requires { CanChange base self.old }
        ensures found { result ≡ list_any (has_id id) (services_in base self.old.services) }
        ensures next { self.new ≡ with_deed base (Deed.deletes id) self.old }
        ensures none { result ≡ false → self.new ≡ self.old }
    {
        let Some(place) = place_of_base(&self.services, base) else {
            unreachable!()
        };
        self.services[place].delete(id)
    }

    /// Opens this table to it, or none, in place of the one that was open.
    pub(crate) fn replace_table(&mut self, table: Option<Sender>) -> Option<Sender>
        ensures was { result ≡ self.old.open_table }
        ensures next { self.new ≡ record self.old { open_table = table } }
    {
        std::mem::replace(&mut self.open_table, table)
    }
}

/// The place of a base.
fn place_of_base(places: &[ServicesOfBase], base: u16) -> Option<usize>
    ensures { result ≡ position (is_of_base base) places.now }
{
    places.iter().position(|place| place.base() == base)
}

/// What the node of a port says of itself.
fn node_record_of(port: &SubnetPort) -> NodeRecord
    ensures value { result ≡ node_record_of port.now }
    ensures fits { Fits (node_record result) }
{
    let node_string = NodeDescription::of_text(port.node_name.as_slice()).node_string;
    node_record(port, port.node_type.code(), node_string)
}

/// The record of a port with these codes of its node; all other facts are the same for every port.
fn node_record(port: &SubnetPort, node_type: u8, node_string: [u8; 64]) -> NodeRecord
    ensures value { node_type_code port.now.node_type ≡ node_type
        → port.now.node_name ++ replicate (64 - length port.now.node_name) 0 ≡ node_string → result ≡ node_record_of port.now }
    ensures fits { Fits (node_record result) }
{
    known_bytes(&node_string);
    known_numbers(
        port.lid,
        port.num_ports,
        port.number,
        port.node_guid,
        port.guid,
    );
    NodeRecord {
        lid: port.lid,
        base_version: 1,
        class_version: 1,
        node_type,
        num_ports: port.num_ports,
        system_image_guid: port.node_guid,
        node_guid: port.node_guid,
        port_guid: port.guid,
        partition_cap: PARTITIONS as u16,
        device_id: 0,
        revision: 0,
        local_port_num: port.number,
        vendor_id: 0,
        node_string,
    }
}

/// Says that the numbers of a port fit their fields. It does nothing.
fn known_numbers(lid: u16, num_ports: u8, number: u8, node_guid: u64, guid: u64)
    ensures lid { lid < 2 ^ 16 }
    ensures num_ports { num_ports < 2 ^ 8 }
    ensures number { number < 2 ^ 8 }
    ensures node_guid { node_guid < 2 ^ 64 }
    ensures guid { guid < 2 ^ 64 }
{}

/// The bytes of a record.
fn bytes_of(shown: &NodeRecord) -> [u8; NODE_RECORD_BYTES]
    requires { Fits (node_record shown.now) }
    ensures { result ≡ node_record_bytes shown.now }
{
    let mut bytes = [0; NODE_RECORD_BYTES];
    shown.write(&mut bytes);
    bytes
}
