//! What was answered.

ghost use Rattle.std.specs.Prelude.{◌≡◌};
ghost use Rattle.pkeys_file.specs.Reply.{keys_reply, node_reply, port_reply, switch_reply};

use crate::fields::Fields;
use crate::query::Query;
use std::marker::Model;

/// The words of a P_Key table, each at its index, as many as its capacity. A word of base 0 is an empty place.
///
/// Source: IBA volume 1, 14.2.5.7 (P_KeyTable).
#[derive(Debug, Drop)]
pub struct KeyList {
    words: Vec<u16>,
}

impl Model for KeyList {
    ghost use Rattle.std.specs.Prelude.{ℕ, List};

    ghost Value = { List ℕ };

    ghost view = { λ list. list.words.items };
}

impl KeyList {
    /// The list of these words.
    pub fn of(words: Vec<u16>) -> KeyList
        ensures { result ≡ words.items }
    {
        KeyList { words }
    }

    /// The words.
    pub fn as_slice(&self) -> &[u16]
        ensures { result.now ≡ self.now }
    {
        self.words.as_slice()
    }
}

/// What a node says of the port that was asked.
#[derive(Clone, Copy, Debug, PartialEq, Eq)]
pub struct NodeReply {
    /// The GUID of the node.
    pub guid: u64,
    /// The GUID of the port.
    pub port_guid: u64,
    /// How many keys the table of such a port holds.
    pub capacity: u16,
}

/// What a query brought.
#[derive(Debug, Drop)]
pub enum Reply {
    /// No whole answer stands behind the query: it failed, or was broken off.
    Unread,
    /// An answer to `nodeinfo`.
    Node(NodeReply),
    /// An answer to `switchinfo`: how many keys the tables of the switch's ports hold, port 0 excepted.
    Switch(u16),
    /// An answer to `pkeys`.
    Keys(KeyList),
    /// An answer to `portinfo`: whether the switch port drops packets under other keys than those of its table.
    Port {
        /// Packets that come in.
        inbound: bool,
        /// Packets that go out.
        outbound: bool,
    },
}

/// A query and what it brought.
#[derive(Debug, Drop)]
pub struct Answer {
    /// The line of the query.
    pub line: usize,
    /// What was asked.
    pub query: Query,
    /// What was answered.
    pub reply: Reply,
}

pub(crate) fn node_reply(fields: Fields) -> Reply
    ensures { result ≡ node_reply fields }
{
    match (fields.guid, fields.port_guid, fields.capacity) {
        (Some(guid), Some(port_guid), Some(capacity)) => Reply::Node(NodeReply {
            guid,
            port_guid,
            capacity,
        }),
        _ => Reply::Unread,
    }
}

pub(crate) fn switch_reply(fields: Fields) -> Reply
    ensures { result ≡ switch_reply fields }
{
    match fields.capacity {
        Some(capacity) => Reply::Switch(capacity),
        None => Reply::Unread,
    }
}

/// The reply to `pkeys`, of the words of all rows.
pub(crate) fn keys_reply(fields: Fields, words: Vec<u16>) -> Reply
    ensures { result ≡ keys_reply fields words.items }
{
    match fields.capacity {
        Some(capacity) => {
            let mut words = words;
            words.truncate(usize::from(capacity));
            Reply::Keys(KeyList::of(words))
        }
        None => Reply::Unread,
    }
}

pub(crate) fn port_reply(fields: Fields) -> Reply
    ensures { result ≡ port_reply fields }
{
    match (fields.inbound, fields.outbound) {
        (Some(inbound), Some(outbound)) => Reply::Port { inbound, outbound },
        _ => Reply::Unread,
    }
}
