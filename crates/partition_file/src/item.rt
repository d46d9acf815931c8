//! The items of a list: which ports, and how.

ghost use Rattle.std.specs.Prelude.{◌≡◌, ◌++◌, ◌∷◌, [], OnOk, IfOk};
ghost use Rattle.partition_file.specs.Ports.{ports_named};

use crate::number::number_up_to;
use std::alloc::{AllocError, Global};
use std::marker::Model;

/// Which end ports an item of a list names.
#[derive(Clone, Copy, Debug, PartialEq, Eq)]
pub enum Ports {
    /// `ALL`: every end port, cabled ports of channel adapters and port 0 of each switch.
    All,
    /// `ALL_CAS`: every port of a channel adapter.
    ChannelAdapters,
    /// `ALL_SWITCHES`: port 0 of every switch.
    Switches,
    /// `ALL_ROUTERS`: every port of a router, of which there are none.
    Routers,
    /// `SELF`: the port that the subnet manager runs on.
    Manager,
    /// The port of this GUID.
    Guid(u64),
}

/// The ports that a word of a list names: a word for ports, or the GUID of one.
pub(crate) fn ports_named(word: &[u8]) -> Option<Ports>
    ensures { result ≡ ports_named word.now }
{
    if word == b"ALL".as_slice() {
        Some(Ports::All)
    } else if word == b"ALL_CAS".as_slice() {
        Some(Ports::ChannelAdapters)
    } else if word == b"ALL_SWITCHES".as_slice() {
        Some(Ports::Switches)
    } else if word == b"ALL_ROUTERS".as_slice() {
        Some(Ports::Routers)
    } else if word == b"SELF".as_slice() {
        Some(Ports::Manager)
    } else {
        number_up_to(u64::MAX, word).map(Ports::Guid)
    }
}

/// An item of a partition's list.
#[derive(Clone, Copy, Debug, PartialEq, Eq)]
pub struct Item {
    /// The ports that it lists.
    pub ports: Ports,
    /// Whether they are full members; else they are limited ones.
    pub full: bool,
}

/// The items of a list, in order.
#[derive(Debug, Drop)]
pub struct ItemList {
    items: Vec<Item>,
}

impl Model for ItemList {
    ghost use Rattle.std.specs.Prelude.{List};
    ghost use Rattle.partition_file.specs.declared.item.Item.{Item};

    ghost Value = { List Item };

    ghost view = { λ list. list.items.items };
}

impl ItemList {
    pub(crate) fn new(alloc: Global) -> ItemList
        ensures { result ≡ [] }
    {
        ItemList {
            items: Vec::new(alloc),
        }
    }

    /// The items, in order.
    pub fn as_slice(&self) -> &[Item]
        ensures { result.now ≡ self.now }
    {
        self.items.as_slice()
    }

    pub(crate) fn push(&mut self, item: Item) -> Result<(), AllocError>
        ensures { OnOk result (self.new ≡ self.old ++ item ∷ []) }
    {
        self.items.push(item)?;
        Ok(())
    }

    pub(crate) fn extend(&mut self, items: &[Item]) -> Result<(), AllocError>
        ensures { OnOk result (self.new ≡ self.old ++ items.now) }
    {
        self.items.extend_from_slice(items)
    }
}
