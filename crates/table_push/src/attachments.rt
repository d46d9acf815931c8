//! Where receivers of multicast LIDs are attached.

ghost use Rattle.std.specs.Prelude.{ℕ, ◌≡◌, ◌<◌, ◌==◌, if◌then◌else◌, IfSome, Some, None, get_or, length, replicate};
ghost use Rattle.std.specs.Int.{bit_at};
ghost use Rattle.table_push.specs.Masks.{LiesInTable};
ghost use Rattle.table_push.specs.MaskSteps.{AreAttached, AreReceiversBits, adapter_home, is_attached_at, is_attached_to, is_that_port, attachment_in, slot_in};

use crate::masks::port_bit;
use attr_tables::WORDS_PER_BLOCK;
use fabric_parts::{FIRST_MULTICAST_LID, PortRef, SWITCHES};
use subnet_model::GroupReceiver;
use updn_routes::Routes;

/// The place of a receiver's multicast LID in an MLID range, and where it is attached.
#[derive(Clone, Copy)]
pub(crate) struct Attachment {
    pub(crate) slot: usize,
    pub(crate) home: PortRef,
}

/// Fills arrays that are empty with where the receivers of an MLID range are attached: for each of its MLIDs the bits of
/// the ports of each switch, and the bits of the switches.
pub(crate) fn put_attachments(
    routes: &Routes,
    partition: u16,
    receivers: &[GroupReceiver],
    ports: &mut [[u64; SWITCHES]; WORDS_PER_BLOCK],
    switches: &mut [u64; WORDS_PER_BLOCK],
)
    requires partition { LiesInTable partition }
    requires ports { ports.old ≡ replicate 32 (replicate 64 0) }
    requires switches { switches.old ≡ replicate 32 0 }
    ensures { AreAttached routes.now partition receivers.now ports.new switches.new }
{
    for index in 0..receivers.len() {
        match attachment_of(routes, partition, &receivers[index]) {
            Some(attachment) => {
                ports[attachment.slot][attachment.home.node] |= port_bit(Some(
                    attachment.home.port,
                ));
                switches[attachment.slot] |= 1 << attachment.home.node;
            }
            None => {}
        }
    }
}

/// For each multicast LID of an MLID range the bits of the switches to which its receivers are attached.
pub(crate) fn switches_of(
    routes: &Routes,
    partition: u16,
    receivers: &[GroupReceiver],
) -> [u64; WORDS_PER_BLOCK]
    requires { LiesInTable partition }
    ensures { AreReceiversBits 64 partition receivers.now (is_attached_to routes.now.between.homes) (λ i. get_or result i 0) }
{
    let mut switches = [0; WORDS_PER_BLOCK];
    for index in 0..receivers.len() {
        match attachment_of(routes, partition, &receivers[index]) {
            Some(attachment) => switches[attachment.slot] |= 1 << attachment.home.node,
            None => {}
        }
    }
    switches
}

/// For each multicast LID of an MLID range the bits of the ports of one switch to which its receivers are attached.
pub(crate) fn ports_at(
    routes: &Routes,
    partition: u16,
    receivers: &[GroupReceiver],
    place: usize,
) -> [u64; WORDS_PER_BLOCK]
    requires { LiesInTable partition }
    ensures long { length result ≡ 32 }
    ensures ports { AreReceiversBits 48 partition receivers.now (is_attached_at routes.now.between.homes place) (λ i. get_or result i 0) }
{
    let mut ports = [0; WORDS_PER_BLOCK];
    for index in 0..receivers.len() {
        match attachment_of(routes, partition, &receivers[index]) {
            Some(attachment) => ports[attachment.slot] |= port_bit(port_on(
                &attachment.home,
                place,
            )),
            None => {}
        }
    }
    ports
}

/// The number of a port, if it is one of the switch at that place.
fn port_on(home: &PortRef, place: usize) -> Option<u8>
    ensures { result ≡ (if home.now.node == place then Some home.now.port else None) }
{
    if home.node == place {
        Some(home.port)
    } else {
        None
    }
}

/// The bit of the switch to which an adapter's port with that LID is attached.
pub(crate) fn home_bit(routes: &Routes, lid: u16) -> u64
    ensures { (s : ℕ) → s < 64 → (bit_at result s == 1) ≡ is_attached_to routes.now.between.homes lid s }
{
    match adapter_home(routes, lid) {
        Some(home) => place_bit(Some(home.node)),
        None => 0,
    }
}

/// The bit of the switch at a place.
pub(crate) fn place_bit(place: Option<usize>) -> u64
    ensures { (s : ℕ) → s < 64 → (bit_at result s == 1) ≡ is_that_port place s }
{
    match place {
        Some(number) => { if number < SWITCHES { 1 << number } else { 0 } }
        None => 0,
    }
}

/// The attachment of a receiver, if its multicast LID is of the MLID range and an adapter's port has its LID.
#[tactic(auto, using(crate::proofs::AttachmentBitLemmas::attachment_low))]
fn attachment_of(routes: &Routes, partition: u16, one: &GroupReceiver) -> Option<Attachment>
    requires { LiesInTable partition }
    ensures attachment { result ≡ attachment_in routes.now partition one.now }
    ensures low { IfSome result (λ attachment. (attachment.slot < 32) × (attachment.home.node < 64)) }
{
    routes.between().known_routes();
    let slot = slot_of(partition, one.mlid)?;
    let home = adapter_home(routes, one.lid)?;
    Some(Attachment { slot, home })
}

/// The place of a multicast LID in the MLID range of a partition.
fn slot_of(partition: u16, mlid: u16) -> Option<usize>
    requires { LiesInTable partition }
    ensures { result ≡ slot_in partition mlid }
{
    let first = FIRST_MULTICAST_LID + 32 * partition;
    if first <= mlid && mlid < first + 32 {
        Some((mlid - first) as usize)
    } else {
        None
    }
}

/// The port of a switch to which an adapter's port with that LID is attached.
pub(crate) fn adapter_home(routes: &Routes, lid: u16) -> Option<PortRef>
    ensures { result ≡ adapter_home routes.now.between.homes lid }
{
    let home = routes.between().home_of(lid)?;
    if home.port == 0 { None } else { Some(home) }
}
