//! The entry of a LID in the table of a switch.

ghost use Rattle.std.specs.Prelude.{◌≡◌, slice_get};
ghost use Rattle.audit_net.specs.Lookup.{entries_of};

use std::marker::Model;

/// What a table says of a LID.
#[derive(Clone, Copy)]
pub enum Entry {
    /// It leads out of this port; 0 is the switch itself.
    Out(u8),
    /// It leads nowhere.
    Missing,
    /// It is not reported.
    Unreported,
}

/// The entries of LIDs in the table of a switch.
#[derive(Drop)]
pub(crate) struct EntryList {
    entries: Vec<Entry>,
}

impl Model for EntryList {
    ghost use Rattle.std.specs.Prelude.{List};
    ghost use Rattle.audit_net.specs.declared.entry.Entry.{Entry};

    ghost Value = { List Entry };

    ghost view = { λ list. list.entries.items };
}

impl EntryList {
    pub(crate) fn of(entries: Vec<Entry>) -> EntryList
        ensures { result ≡ entries.items }
    {
        EntryList { entries }
    }

    pub(crate) fn as_slice(&self) -> &[Entry]
        ensures { result.now ≡ self.now }
    {
        self.entries.as_slice()
    }
}

/// The entries of the node there.
pub(crate) fn entries_of(all: &[EntryList], place: usize) -> &[Entry]
    ensures { result.now ≡ entries_of all.now place }
{
    match all.get(place) {
        Some(entries) => entries.as_slice(),
        None => &[],
    }
}

/// The entry of a LID of the node there, if it is among these.
pub(crate) fn entry_at(all: &[EntryList], place: usize, lid: u16) -> Option<Entry>
    ensures { result ≡ slice_get (entries_of all.now place) lid }
{
    entries_of(all, place).get(usize::from(lid)).copied()
}
