//! What a group is made of that a port joins and that is not there.

ghost use Rattle.std.specs.Prelude.{◌≡◌, ◌/◌, ◌%◌, ◌^◌, not, ◌||◌};
ghost use Rattle.sa_records.specs.Component.{satisfies};
ghost use Rattle.sa_records.specs.McMemberMask as member_mask;
ghost use Rattle.sa_records.specs.Speed.{rate_satisfies};
ghost use Rattle.sa_model.specs.Selected.{asks};
ghost use Rattle.sa_replies.specs.Joins.{life_taken, mtu_taken, parameters_asked, rate_taken};
ghost use Rattle.sa_store.specs.MlidRange.{parameters_of};

use crate::questions::asks;
use attr_tables::{Mtu, Rate};
use sa_records::member_mask::{HOP_LIMIT, SCOPE, SELECTED_LIFE_TIME, SELECTED_MTU, SELECTED_RATE};
use sa_records::{McMemberRecord, code_satisfies, rate_satisfies};
use sa_store::{GroupParameters, PACKET_LIFE_TIME as PACKETS_LIVE};

/// The greatest MTU that we have and that satisfies what is asked.
pub(crate) fn mtu_taken(mask: u64, asked: &McMemberRecord) -> Option<u8>
    ensures { result ≡ mtu_taken mask asked.now }
{
    [
        Mtu::Bytes2048.code(),
        Mtu::Bytes1024.code(),
        Mtu::Bytes512.code(),
        Mtu::Bytes256.code(),
    ]
    .iter()
    .copied()
    .find(|mtu| takes_mtu(mask, asked, *mtu))
}

/// Whether an MTU satisfies what is asked.
fn takes_mtu(mask: u64, asked: &McMemberRecord, mtu: u8) -> bool
    ensures { result ≡ (not (asks mask member_mask.mtu) || satisfies asked.now.mtu_selector mtu asked.now.mtu) }
{
    !asks(mask, SELECTED_MTU) || code_satisfies(asked.mtu_selector, mtu, asked.mtu)
}

/// The greatest rate that we have and that satisfies what is asked.
pub(crate) fn rate_taken(mask: u64, asked: &McMemberRecord) -> Option<u8>
    ensures { result ≡ rate_taken mask asked.now }
{
    [
        Rate::Gbps10.code(),
        Rate::Gbps5.code(),
        Rate::Gbps2_5.code(),
    ]
    .iter()
    .copied()
    .find(|rate| takes_rate(mask, asked, *rate))
}

/// Whether a rate satisfies what is asked.
fn takes_rate(mask: u64, asked: &McMemberRecord, rate: u8) -> bool
    ensures { result ≡ (not (asks mask member_mask.rate) || rate_satisfies asked.now.rate_selector rate asked.now.rate) }
{
    !asks(mask, SELECTED_RATE) || rate_satisfies(asked.rate_selector, rate, asked.rate)
}

/// The PacketLifeTime that we have, if it satisfies what is asked.
pub(crate) fn life_taken(mask: u64, asked: &McMemberRecord) -> Option<u8>
    ensures { result ≡ life_taken mask asked.now }
{
    let life = PACKETS_LIVE;
    if !asks(mask, SELECTED_LIFE_TIME)
        || code_satisfies(
            asked.packet_life_time_selector,
            life,
            asked.packet_life_time,
        )
    {
        Some(life)
    } else {
        None
    }
}

/// What is fixed for a group that is made by a join: HopLimit is as asked or 0, Scope as asked or as the MGID has it.
pub(crate) fn parameters_asked(mask: u64, asked: &McMemberRecord) -> GroupParameters
    ensures { parameters_of result ≡ parameters_asked mask asked.now }
{
    GroupParameters {
        q_key: asked.q_key,
        mtu: mtu_taken(mask, asked).unwrap_or(0),
        traffic_class: asked.t_class,
        rate: rate_taken(mask, asked).unwrap_or(0),
        packet_life_time: life_taken(mask, asked).unwrap_or(0),
        service_level: asked.sl,
        flow_label: asked.flow_label,
        hop_limit: if asks(mask, HOP_LIMIT) {
            asked.hop_limit
        } else {
            0
        },
        scope: if asks(mask, SCOPE) {
            asked.scope
        } else {
            scope_in(asked.mgid)
        },
    }
}

/// The scope that an MGID has in its second byte.
fn scope_in(mgid: u128) -> u8
    ensures { result ≡ mgid / 2 ^ 112 % 16 }
{
    ((mgid >> 112) % 16) as u8
}
