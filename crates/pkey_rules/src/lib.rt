//! P_Keys: who may talk to whom in an InfiniBand subnet.
//!
//! A [`PKey`] names a partition and says whether its holder is a full or a limited member. A [`KeyTable`] is what a port
//! holds: a list of keys, no two of one partition. Contracts see a key as its number and a table as its list of numbers,
//! and every layer above cites the two tests that stand here: whether two keys match (`specs/PKey.antt`), and whether
//! two tables share a partition (`specs/KeyTable.antt`). What the words of a stored P_Key table mean is in
//! `specs/StoredKeys.antt`. The keys and their table are those of the IBA volume 1,
//! 14.2.5.7.
#![tactic(auto)]

mod end_port;
mod key_table;
mod laws;
mod p_key;
mod stored_keys;

pub use crate::end_port::EndPort;
pub use crate::key_table::{KeyTable, PARTITIONS, PushRefusal};
pub use crate::laws::{keys_are_stored, the_numbers};
pub use crate::p_key::{BASES, DEFAULT_BASE, InvalidBase, PKey, base_of, key_of};
pub use crate::stored_keys::{stored_accepts, stored_holds};
